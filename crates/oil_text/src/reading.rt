// From tokens to the tree, by the grammar: one function for each part of it, which looks at the next token alone.
ghost use Rattle.std.specs.Prelude.{◌≡◌, ◌∷◌, [], ◌++◌, ℕ, ◌+◌, ◌<◌, ◌≤◌, length, IfOk};
ghost use Rattle.grammar.specs.Grammar.{◌▸◌, optional, Many, One, Rule};
ghost use Rattle.grammar.specs.Reading.{begins};
ghost use Rattle.oil_text.specs.OilGrammar.{class_of, class_of_kind, name, names, number, string, description, block, nested, sign, Object, Attribute as AttributeRule, Value as ValueRule};
ghost use Rattle.oil_text.specs.OilMeaning.{place_at, name_at, number_at, signed_at, value_at, attribute_at, attributes_at, block_at, object_at};
ghost use Rattle.oil_text.specs.OilReading.{Gives, tree_at};

use crate::stop::Stop;
use crate::token::{Kind, Mark, Token};
use chk_base::place::Place;
use chk_base::text::Name;
use oil_tree::tree::{Attribute, Attributes, Item, Value, ValueForm};
use std::alloc::Global;

/// A token of the kind.
#[tactic(auto, using(crate::proofs::Classes::same_class), unfolding(crate::specs::OilReading::tree_at))]
pub(crate) fn token(tokens: &[Token], kind: Kind) -> Result<(Place, &[Token]), Stop>
    ensures gives { Gives (λ x. x.1.now) result (One (class_of_kind kind ∷ [])) tokens.now }
    ensures means { IfOk result (λ x. place_at (tree_at (One (class_of_kind kind ∷ [])) tokens.now) ≡ x.0) }
    ensures shorter { IfOk result (λ x. length x.1.now < length tokens.now) }
{
    match tokens {
        [first, rest @ ..] => {
            if first.kind == kind {
                Ok((first.place, rest))
            } else {
                Err(Stop::At(tokens))
            }
        }
        [] => Err(Stop::At(tokens)),
    }
}

/// Is the next token of the kind?
#[tactic(auto, using(crate::proofs::Classes::same_class))]
pub(crate) fn is_next(tokens: &[Token], kind: Kind) -> bool
    ensures { result ≡ begins class_of (class_of_kind kind ∷ []) tokens.now }
{
    match tokens {
        [first, ..] => first.kind == kind,
        [] => false,
    }
}

fn is_name(tokens: &[Token]) -> bool
    ensures { result ≡ begins class_of names tokens.now }
{
    match tokens {
        [first, ..] => matches!(
            first.kind,
            Kind::Version | Kind::Implementation | Kind::Cpu | Kind::OtherName
        ),
        [] => false,
    }
}

#[tactic(auto, unfolding(crate::specs::OilReading::tree_at))]
pub(crate) fn name(alloc: Global, tokens: &[Token]) -> Result<(Name, &[Token]), Stop>
    ensures gives { Gives (λ x. x.1.now) result name tokens.now }
    ensures means { IfOk result (λ x. name_at (tree_at name tokens.now) ≡ x.0) }
    ensures shorter { IfOk result (λ x. length x.1.now < length tokens.now) }
{
    match tokens {
        [first, rest @ ..] => match first.kind {
            Kind::Version | Kind::Implementation | Kind::Cpu | Kind::OtherName => Ok((
                Name {
                    text: first.text.copy(alloc)?,
                    place: first.place,
                },
                rest,
            )),
            _ => Err(Stop::At(tokens)),
        },
        [] => Err(Stop::At(tokens)),
    }
}

#[tactic(auto, unfolding(crate::specs::OilReading::tree_at))]
pub(crate) fn string(alloc: Global, tokens: &[Token]) -> Result<(Name, &[Token]), Stop>
    ensures gives { Gives (λ x. x.1.now) result string tokens.now }
    ensures means { IfOk result (λ x. name_at (tree_at string tokens.now) ≡ x.0) }
    ensures shorter { IfOk result (λ x. length x.1.now < length tokens.now) }
{
    match tokens {
        [first, rest @ ..] => match first.kind {
            Kind::Quoted => Ok((
                Name {
                    text: first.text.copy(alloc)?,
                    place: first.place,
                },
                rest,
            )),
            _ => Err(Stop::At(tokens)),
        },
        [] => Err(Stop::At(tokens)),
    }
}

#[tactic(auto, unfolding(crate::specs::OilReading::tree_at))]
fn number(alloc: Global, tokens: &[Token]) -> Result<(Value, &[Token]), Stop>
    ensures gives { Gives (λ x. x.1.now) result number tokens.now }
    ensures means { IfOk result (λ x. number_at (tree_at number tokens.now) ≡ x.0) }
    ensures shorter { IfOk result (λ x. length x.1.now < length tokens.now) }
{
    match tokens {
        [first, rest @ ..] => match first.kind {
            Kind::Integer => Ok((
                Value {
                    form: ValueForm::Integer,
                    negative: false,
                    text: first.text.copy(alloc)?,
                    place: first.place,
                },
                rest,
            )),
            Kind::Point => Ok((
                Value {
                    form: ValueForm::Point,
                    negative: false,
                    text: first.text.copy(alloc)?,
                    place: first.place,
                },
                rest,
            )),
            _ => Err(Stop::At(tokens)),
        },
        [] => Err(Stop::At(tokens)),
    }
}

/// A description, if there is one. Nothing of it is kept.
#[tactic(auto, using(crate::proofs::Opened::tree_at_is))]
pub(crate) fn description(tokens: &[Token]) -> Result<&[Token], Stop>
    ensures gives { Gives (λ rest. rest.now) result (optional description) tokens.now }
    ensures shorter { IfOk result (λ rest. length rest.now ≤ length tokens.now) }
{
    if !is_next(tokens, Kind::Mark(Mark::Colon)) {
        return Ok(tokens);
    }
    let (_, rest) = token(tokens, Kind::Mark(Mark::Colon))?;
    let (_, rest) = token(rest, Kind::Quoted)?;
    Ok(rest)
}

/// A number with a sign or without.
#[tactic(auto, using(crate::proofs::Opened::tree_at_is))]
fn signed(alloc: Global, tokens: &[Token]) -> Result<(Value, &[Token]), Stop>
    ensures gives { Gives (λ x. x.1.now) result (sign ▸ number) tokens.now }
    ensures means { IfOk result (λ x. signed_at (tree_at (sign ▸ number) tokens.now) ≡ x.0) }
    ensures shorter { IfOk result (λ x. length x.1.now < length tokens.now) }
{
    if is_next(tokens, Kind::Mark(Mark::Plus)) {
        let (place, rest) = token(tokens, Kind::Mark(Mark::Plus))?;
        let (value, rest) = number(alloc, rest)?;
        return Ok((Value { place, ..value }, rest));
    }
    if is_next(tokens, Kind::Mark(Mark::Minus)) {
        let (place, rest) = token(tokens, Kind::Mark(Mark::Minus))?;
        let (value, rest) = number(alloc, rest)?;
        return Ok((
            Value {
                negative: true,
                place,
                ..value
            },
            rest,
        ));
    }
    number(alloc, tokens)
}

#[tactic(auto, using(crate::proofs::Opened::value_opened, crate::proofs::Opened::tree_at_is))]
fn value(alloc: Global, tokens: &[Token]) -> Result<(Value, &[Token]), Stop>
    ensures gives { Gives (λ x. x.1.now) result (Rule ValueRule) tokens.now }
    ensures means { IfOk result (λ x. value_at (tree_at (Rule ValueRule) tokens.now) ≡ x.0) }
    ensures shorter { IfOk result (λ x. length x.1.now < length tokens.now) }
{
    if is_name(tokens) {
        let (Name { text, place }, rest) = name(alloc, tokens)?;
        return Ok((
            Value {
                form: ValueForm::Word,
                negative: false,
                text,
                place,
            },
            rest,
        ));
    }
    if is_next(tokens, Kind::Quoted) {
        let (Name { text, place }, rest) = string(alloc, tokens)?;
        return Ok((
            Value {
                form: ValueForm::Quoted,
                negative: false,
                text,
                place,
            },
            rest,
        ));
    }
    signed(alloc, tokens)
}

/// The attributes between braces, none without braces.
#[cycle(attributes)]
#[tactic(auto, using(crate::proofs::Opened::tree_at_is))]
fn optional_block(
    alloc: Global,
    tokens: &[Token],
    below: u8,
) -> Result<(Attributes, &[Token]), Stop>
    ensures gives { Gives (λ x. x.1.now) result (optional (block below)) tokens.now }
    ensures means { IfOk result (λ x. block_at (tree_at (optional (block below)) tokens.now) ≡ x.0) }
    ensures shorter { IfOk result (λ x. length x.1.now ≤ length tokens.now) }
{
    if !is_next(tokens, Kind::Mark(Mark::OpeningBrace)) {
        return Ok((Attributes::new(alloc), tokens));
    }
    let (_, rest) = token(tokens, Kind::Mark(Mark::OpeningBrace))?;
    let (attributes, rest) = attributes(alloc, rest, below)?;
    let (_, rest) = token(rest, Kind::Mark(Mark::ClosingBrace))?;
    Ok((attributes, rest))
}

/// The attributes nested in an attribute, below which so many levels may be.
#[cycle(attributes)]
#[tactic(auto, using(crate::proofs::Opened::tree_at_is))]
fn nested(alloc: Global, tokens: &[Token], below: u8) -> Result<(Attributes, &[Token]), Stop>
    ensures gives { Gives (λ x. x.1.now) result (nested below) tokens.now }
    ensures means { IfOk result (λ x. block_at (tree_at (nested below) tokens.now) ≡ x.0) }
    ensures shorter { IfOk result (λ x. length x.1.now ≤ length tokens.now) }
{
    if below == 0 {
        return Ok((Attributes::new(alloc), tokens));
    }
    optional_block(alloc, tokens, below - 1)
}

#[cycle(attributes)]
#[tactic(auto, using(crate::proofs::Opened::attribute_opened, crate::proofs::Opened::tree_at_is))]
fn attribute(alloc: Global, tokens: &[Token], below: u8) -> Result<(Attribute, &[Token]), Stop>
    ensures gives { Gives (λ x. x.1.now) result (Rule (AttributeRule below)) tokens.now }
    ensures means { IfOk result (λ x. attribute_at (tree_at (Rule (AttributeRule below)) tokens.now) ≡ x.0) }
    ensures shorter { IfOk result (λ x. length x.1.now < length tokens.now) }
{
    let (name, rest) = name(alloc, tokens)?;
    let (_, rest) = token(rest, Kind::Mark(Mark::Equals))?;
    let (value, rest) = value(alloc, rest)?;
    let (nested, rest) = nested(alloc, rest, below)?;
    let rest = description(rest)?;
    let (_, rest) = token(rest, Kind::Mark(Mark::Semicolon))?;
    Ok((
        Attribute {
            name,
            value,
            nested,
        },
        rest,
    ))
}

#[cycle(attributes)]
fn attributes(alloc: Global, tokens: &[Token], below: u8) -> Result<(Attributes, &[Token]), Stop>
    ensures gives { Gives (λ x. x.1.now) result (Many (Rule (AttributeRule below))) tokens.now }
    ensures means { IfOk result (λ x. attributes_at (tree_at (Many (Rule (AttributeRule below))) tokens.now) ≡ x.0) }
    ensures shorter { IfOk result (λ x. length x.1.now ≤ length tokens.now) }
{
    let mut attributes = Attributes::new(alloc);
    let mut rest = tokens;
    while is_name(rest) {
        let (attribute, after) = attribute(alloc, rest, below)?;
        attributes.push(attribute)?;
        rest = after;
    }
    Ok((attributes, rest))
}

#[tactic(auto, using(crate::proofs::Opened::object_opened, crate::proofs::Opened::tree_at_is))]
pub(crate) fn object(alloc: Global, tokens: &[Token]) -> Result<(Item, &[Token]), Stop>
    ensures gives { Gives (λ x. x.1.now) result (Rule Object) tokens.now }
    ensures means { IfOk result (λ x. object_at (tree_at (Rule Object) tokens.now) ≡ x.0) }
    ensures shorter { IfOk result (λ x. length x.1.now < length tokens.now) }
{
    let (kind, rest) = name(alloc, tokens)?;
    let (name, rest) = name(alloc, rest)?;
    let (attributes, rest) = optional_block(alloc, rest, 7)?;
    let rest = description(rest)?;
    let (_, rest) = token(rest, Kind::Mark(Mark::Semicolon))?;
    Ok((
        Item::Object {
            kind,
            name,
            attributes,
        },
        rest,
    ))
}
