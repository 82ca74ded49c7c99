// The first fault of a unit.
ghost use Rattle.std.specs.Prelude.{◌≡◌, IfOk, OnOk, MatchOption, [], None, fold};
ghost use Rattle.c_rules.specs.First.{first_of, IsFirst};
ghost use Rattle.c_rules.specs.Files.{nothing_of, known_of, with_variable, with_external};
ghost use Rattle.c_rules.specs.UnitRules.{is_taken, name_faults, variables_faults, taken_faults, names_faults, faults};

use crate::first::{Fault, First};
use crate::names::{Names, variable_name};
use crate::objects::{object_named, system_named};
use crate::units::seeing_externals;
use application::app::App;
use c_unit::unit::{Declaration, External, Unit};
use chk_base::text::Name;
use std::alloc::{AllocError, Global};

fn is_taken(names: &Names<'_>, name: &[u8]) -> bool
    ensures { result ≡ is_taken names.now name.now }
{
    object_named(names.app(), name).is_some()
        || system_named(name).is_some()
        || names.file(name).is_some()
}

// With the fault of a name of file level that is taken.
fn seeing_name(first: First, names: &Names<'_>, name: &Name) -> First
    ensures { result.fault ≡ first_of first.fault (name_faults names.now name.now) }
{
    first.seeing(is_taken(names, name.text.as_bytes()), 3, name.place)
}

// With the faults of the names of variables, which are declared.
#[tactic(auto, using(crate::proofs::NameParts::variable_seen, crate::proofs::NameParts::variable_declared))]
fn declaring_variables<'a>(
    first: First,
    names: &mut Names<'a>,
    declarations: &'a [Declaration],
) -> Result<First, AllocError>
    ensures first { IfOk result (λ f. f.fault ≡ first_of first.fault (variables_faults names.old declarations.now)) }
    ensures names { OnOk result (names.new ≡ fold with_variable names.old declarations.now) }
{
    let mut first = first;
    for d in declarations {
        first = seeing_name(first, names, variable_name(&d.variable));
        names.declare_variable(d)?;
    }
    Ok(first)
}

// With the faults of the names that stand at file level, which are declared.
fn declaring<'a>(
    first: First,
    names: &mut Names<'a>,
    external: &'a External,
) -> Result<First, AllocError>
    ensures first { IfOk result (λ f. f.fault ≡ first_of first.fault (taken_faults names.old external.now)) }
    ensures names { OnOk result (names.new ≡ with_external names.old external.now) }
{
    match external {
        External::Variables(declarations) => {
            declaring_variables(first, names, declarations.as_slice())
        }
        External::Function(f) => {
            let first = seeing_name(first, names, &f.signature.name);
            names.declare_function(&f.signature)?;
            Ok(first)
        }
        _ => Ok(first),
    }
}

#[tactic(auto, using(crate::proofs::NameParts::external_seen, crate::proofs::NameParts::external_declared))]
fn declaring_all<'a>(
    first: First,
    names: &mut Names<'a>,
    externals: &'a [External],
) -> Result<First, AllocError>
    ensures first { IfOk result (λ f. f.fault ≡ first_of first.fault (names_faults names.old externals.now)) }
    ensures names { OnOk result (names.new ≡ fold with_external names.old externals.now) }
{
    let mut first = first;
    for external in externals {
        first = declaring(first, names, external)?;
    }
    Ok(first)
}

/// The names of a unit, and the first fault of those that are declared at file level.
#[derive(Drop)]
pub struct Read<'a> {
    pub names: Names<'a>,
    pub first: First,
}

/// What is known of a unit, for an application, with the first fault of the names that it declares at file level.
#[tactic(auto, unfolding(crate::specs::Files::known_of))]
pub fn read_names<'a>(alloc: Global, app: &'a App, unit: &'a Unit) -> Result<Read<'a>, AllocError>
    ensures names { IfOk result (λ r. r.names ≡ known_of app.now unit.now) }
    ensures first { IfOk result (λ r. r.first.fault ≡ first_of None (names_faults (nothing_of app.now) unit.now.externals)) }
{
    let mut names = Names::new(alloc, app);
    let first = declaring_all(First::none(), &mut names, unit.externals.as_slice())?;
    Ok(Read { names, first })
}

/// The first fault of a unit: that with the least place, and there of the least rule. None exactly where no rule is broken.
#[tactic(auto, using(crate::proofs::Firsts::first_of_append, crate::proofs::Least::first_is), unfolding(crate::specs::UnitRules::faults))]
pub fn first_fault(
    alloc: Global,
    app: &App,
    unit: &Unit,
    read: &Read<'_>,
) -> Result<Option<Fault>, AllocError>
    requires names { read.now.names ≡ known_of app.now unit.now }
    requires first { read.now.first.fault ≡ first_of None (names_faults (nothing_of app.now) unit.now.externals) }
    ensures { IfOk result (λ fault. MatchOption fault (faults unit.now app.now ≡ []) (IsFirst (faults unit.now app.now))) }
{
    let first = seeing_externals(alloc, read.first, &read.names, unit.externals.as_slice())?;
    Ok(first.fault)
}
