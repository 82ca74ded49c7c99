// The sections of a file, from tokens to the tree.
ghost use Rattle.std.specs.Prelude.{◌≡◌, ◌∷◌, [], ◌++◌, ◌<◌, ◌≤◌, length, map, IfOk};
ghost use Rattle.grammar.specs.Grammar.{◌▸◌, ◌∣◌, optional, items, Many, Rule};
ghost use Rattle.grammar.specs.Reading.{begins};
ghost use Rattle.oil_text.specs.OilGrammar.{class_of, names, include, Version, Implementation, Cpu, File, Object, Braced};
ghost use Rattle.oil_text.specs.OilMeaning.{item_at, places_at, version_at, first_place_at, implementation_at, late_includes_at, cpu_name_at, items_at, tree_of};
ghost use Rattle.oil_text.specs.OilReading.{Gives, tree_at};

use crate::braced::braced;
use crate::reading::{description, is_next, name, object, string, token};
use crate::stop::Stop;
use crate::token::{Kind, Mark, Token};
use chk_base::place::Place;
use chk_base::text::Name;
use oil_tree::tree::{Item, Items, OilTree, Places};
use std::alloc::Global;

/// The places of includes, after those that are there.
fn includes(tokens: &[Token], places: Places) -> Result<(Places, &[Token]), Stop>
    ensures gives { Gives (λ x. x.1.now) result (Many include) tokens.now }
    ensures means { IfOk result (λ x. places ++ places_at (tree_at (Many include) tokens.now) ≡ x.0) }
    ensures shorter { IfOk result (λ x. length x.1.now ≤ length tokens.now) }
{
    let mut found = places;
    let mut rest = tokens;
    while is_next(rest, Kind::Include) {
        let (place, after) = token(rest, Kind::Include)?;
        found.push(place)?;
        rest = after;
    }
    Ok((found, rest))
}

/// Does an include or an object come next?
fn is_item(tokens: &[Token]) -> bool
    ensures { result ≡ begins class_of (7 ∷ names) tokens.now }
{
    match tokens {
        [first, ..] => matches!(
            first.kind,
            Kind::Include | Kind::Version | Kind::Implementation | Kind::Cpu | Kind::OtherName
        ),
        [] => false,
    }
}

#[tactic(auto, using(crate::proofs::Opened::tree_at_is))]
fn item(alloc: Global, tokens: &[Token]) -> Result<(Item, &[Token]), Stop>
    ensures gives { Gives (λ x. x.1.now) result (include ∣ Rule Object) tokens.now }
    ensures means { IfOk result (λ x. item_at (tree_at (include ∣ Rule Object) tokens.now) ≡ x.0) }
    ensures shorter { IfOk result (λ x. length x.1.now < length tokens.now) }
{
    if is_next(tokens, Kind::Include) {
        let (place, rest) = token(tokens, Kind::Include)?;
        return Ok((Item::Include(place), rest));
    }
    object(alloc, tokens)
}

fn items(alloc: Global, tokens: &[Token]) -> Result<(Items, &[Token]), Stop>
    ensures gives { Gives (λ x. x.1.now) result (Many (include ∣ Rule Object)) tokens.now }
    ensures means { IfOk result (λ x. map item_at (items (tree_at (Many (include ∣ Rule Object)) tokens.now)) ≡ x.0) }
    ensures shorter { IfOk result (λ x. length x.1.now ≤ length tokens.now) }
{
    let mut items = Items::new(alloc);
    let mut rest = tokens;
    while is_item(rest) {
        let (item, after) = item(alloc, rest)?;
        items.push(item)?;
        rest = after;
    }
    Ok((items, rest))
}

#[tactic(auto, using(crate::proofs::Opened::version_opened, crate::proofs::Opened::tree_at_is))]
fn version(alloc: Global, tokens: &[Token]) -> Result<(Name, &[Token]), Stop>
    ensures gives { Gives (λ x. x.1.now) result (Rule Version) tokens.now }
    ensures means { IfOk result (λ x. version_at (tree_at (Rule Version) tokens.now) ≡ x.0) }
{
    let (_, rest) = token(tokens, Kind::Version)?;
    let (_, rest) = token(rest, Kind::Mark(Mark::Equals))?;
    let (version, rest) = string(alloc, rest)?;
    let rest = description(rest)?;
    let (_, rest) = token(rest, Kind::Mark(Mark::Semicolon))?;
    Ok((version, rest))
}

/// The place of the IMPLEMENTATION section, of which nothing else is kept.
#[tactic(auto, using(crate::proofs::Opened::implementation_opened, crate::proofs::Opened::tree_at_is))]
fn implementation(alloc: Global, tokens: &[Token]) -> Result<(Place, &[Token]), Stop>
    ensures gives { Gives (λ x. x.1.now) result (Rule Implementation) tokens.now }
    ensures means { IfOk result (λ x. first_place_at (tree_at (Rule Implementation) tokens.now) ≡ x.0) }
{
    let (place, rest) = token(tokens, Kind::Implementation)?;
    let (_, rest) = name(alloc, rest)?;
    let rest = braced(rest)?;
    let rest = description(rest)?;
    let (_, rest) = token(rest, Kind::Mark(Mark::Semicolon))?;
    Ok((place, rest))
}

/// The IMPLEMENTATION section with the includes after it, if there is one.
#[tactic(auto, using(crate::proofs::Opened::tree_at_is, crate::proofs::Repeated::append_none))]
fn optional_implementation(
    alloc: Global,
    tokens: &[Token],
    places: Places,
) -> Result<((Option<Place>, Places), &[Token]), Stop>
    ensures gives { Gives (λ x. x.1.now) result (optional (Rule Implementation ▸ Many include)) tokens.now }
    ensures place { IfOk result (λ x. implementation_at (tree_at (optional (Rule Implementation ▸ Many include)) tokens.now) ≡ x.0.0) }
    ensures includes { IfOk result (λ x. places ++ late_includes_at (tree_at (optional (Rule Implementation ▸ Many include)) tokens.now) ≡ x.0.1) }
{
    if !is_next(tokens, Kind::Implementation) {
        return Ok(((None, places), tokens));
    }
    let (place, rest) = implementation(alloc, tokens)?;
    let (places, rest) = includes(rest, places)?;
    Ok(((Some(place), places), rest))
}

#[tactic(auto, using(crate::proofs::Opened::cpu_opened, crate::proofs::Opened::tree_at_is))]
fn cpu(alloc: Global, tokens: &[Token]) -> Result<((Name, Items), &[Token]), Stop>
    ensures gives { Gives (λ x. x.1.now) result (Rule Cpu) tokens.now }
    ensures name { IfOk result (λ x. cpu_name_at (tree_at (Rule Cpu) tokens.now) ≡ x.0.0) }
    ensures items { IfOk result (λ x. items_at (tree_at (Rule Cpu) tokens.now) ≡ x.0.1) }
{
    let (_, rest) = token(tokens, Kind::Cpu)?;
    let (name, rest) = name(alloc, rest)?;
    let (_, rest) = token(rest, Kind::Mark(Mark::OpeningBrace))?;
    let (items, rest) = items(alloc, rest)?;
    let (_, rest) = token(rest, Kind::Mark(Mark::ClosingBrace))?;
    let rest = description(rest)?;
    let (_, rest) = token(rest, Kind::Mark(Mark::Semicolon))?;
    Ok(((name, items), rest))
}

#[tactic(auto, using(crate::proofs::Opened::file_opened, crate::proofs::Opened::tree_at_is))]
pub(crate) fn file(alloc: Global, tokens: &[Token]) -> Result<(OilTree, &[Token]), Stop>
    ensures gives { Gives (λ x. x.1.now) result (Rule File) tokens.now }
    ensures means { IfOk result (λ x. tree_of (tree_at (Rule File) tokens.now) ≡ x.0) }
{
    let (version, rest) = version(alloc, tokens)?;
    let (places, rest) = includes(rest, Places::new(alloc))?;
    let ((implementation, includes), rest) = optional_implementation(alloc, rest, places)?;
    let ((cpu, items), rest) = cpu(alloc, rest)?;
    Ok((
        OilTree {
            version,
            includes,
            implementation,
            cpu,
            items,
        },
        rest,
    ))
}
