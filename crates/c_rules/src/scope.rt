// The locals of a body, and those of them that can be seen at a place.
ghost use Rattle.std.specs.Prelude.{◌≡◌, OnOk, length, map};
ghost use Rattle.std.specs.List.{list_any};
ghost use Rattle.c_rules.specs.PlainScopes.{plain_declared, plain_visible};
ghost use Rattle.c_rules.specs.Scopes.{fresh, is_named, is_declared, local_named, declared, entered, left_at};

use crate::meaning::LocalMeaning;
use crate::objects::same;
use c_unit::expression::TypeName;
use chk_base::text::Name;
use std::alloc::{AllocError, Global};
use std::marker::Model;

/// A parameter or local as it is declared.
#[derive(Clone, Copy)]
pub struct Declared<'a> {
    pub name: &'a Name,
    pub type_name: TypeName,
}

// A local that can be seen, by its name.
#[derive(Clone, Copy)]
struct Visible<'a> {
    name: &'a Name,
    local: LocalMeaning,
}

fn is_named(v: &Visible<'_>, name: &[u8]) -> bool
    ensures { result ≡ is_named name.now (plain_visible v.now) }
{
    same(name, v.name.text.as_bytes())
}

// Whether one of these has the name.
fn is_among(visible: &[Visible<'_>], name: &[u8]) -> bool
    ensures { result ≡ list_any (λ v. is_named name.now (plain_visible v)) visible.now }
{
    visible.iter().any(|v| is_named(v, name))
}

/// The locals that a body has declared so far, and those that can be seen.
#[derive(Drop)]
pub struct Scope<'a> {
    locals: Vec<Declared<'a>>,
    visible: Vec<Visible<'a>>,
    start: usize,
}

impl<'a> Model for Scope<'a> {
    ghost use Rattle.std.specs.Prelude.{map};
    ghost use Rattle.c_rules.specs.Scopes.{Scope};
    ghost use Rattle.c_rules.specs.PlainScopes.{plain_declared, plain_visible};

    ghost Value = { Scope };

    ghost view = { λ s. record { locals = map plain_declared s.locals.items; visible = map plain_visible s.visible.items; start = s.start } };
}

/// How many locals could be seen where a scope within was entered, and where the outer one starts among them.
#[derive(Clone, Copy, PartialEq, Eq, Debug)]
pub struct Outer {
    pub count: usize,
    pub start: usize,
}

impl<'a> Scope<'a> {
    /// The scope of a body, without a local. It takes no memory.
    pub fn new(alloc: Global) -> Scope<'a>
        ensures { result ≡ fresh }
    {
        Scope {
            locals: Vec::new(alloc),
            visible: Vec::new(alloc),
            start: 0,
        }
    }

    /// Declares one more local, whose number is that of the locals before it. After want of memory the scope may have one more local that
    /// can't be seen.
    pub fn declare(
        &mut self,
        name: &'a Name,
        type_name: TypeName,
        constant: bool,
    ) -> Result<(), AllocError>
        ensures { OnOk result (self.new ≡ declared name.now type_name constant self.old) }
    {
        let number = self.locals.len();
        self.visible.push(Visible {
            name,
            local: LocalMeaning {
                number,
                type_name,
                constant,
            },
        })?;
        self.locals.push(Declared { name, type_name })?;
        Ok(())
    }

    /// Whether the innermost scope has a local of this name. It takes no memory.
    pub fn has(&self, name: &[u8]) -> bool
        ensures { result ≡ is_declared self.now name.now }
    {
        let start = self.start.min(self.visible.len());
        is_among(&self.visible[start..], name)
    }

    /// The local that a name means. It takes no memory.
    #[tactic(auto, using(crate::proofs::ScopeLists::nearest, std::proofs::lemmas::List::Sums::fold_more))]
    pub fn local(&self, name: &[u8]) -> Option<LocalMeaning>
        ensures { result ≡ local_named self.now.visible name.now }
    {
        let mut found = None;
        for v in &self.visible {
            if is_named(v, name) {
                found = Some(v.local);
            }
        }
        found
    }

    /// Enters a new scope within. It takes no memory.
    pub fn enter(&mut self) -> Outer
        ensures scope { self.new ≡ entered self.old }
        ensures count { result.count ≡ length self.old.visible }
        ensures start { result.start ≡ self.old.start }
    {
        let outer = Outer {
            count: self.visible.len(),
            start: self.start,
        };
        self.start = outer.count;
        outer
    }

    /// Leaves the innermost scope. It takes no memory.
    #[tactic(auto, using(crate::proofs::ScopeLists::front))]
    pub fn leave(&mut self, outer: Outer)
        ensures { self.new ≡ left_at outer.count outer.start self.old }
    {
        self.visible.truncate(outer.count);
        self.start = outer.start;
    }

    /// The locals that are declared so far, in the order of the text. It takes no memory.
    pub fn locals(&self) -> &[Declared<'a>]
        ensures { map plain_declared result.now ≡ self.now.locals }
    {
        self.locals.as_slice()
    }

    /// How many locals are declared so far. It takes no memory.
    pub fn len(&self) -> usize
        ensures { result ≡ length self.now.locals }
    {
        self.locals.len()
    }
}
