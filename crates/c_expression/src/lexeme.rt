// Readers of single tokens.
ghost use Rattle.std.specs.Prelude.{◌≡◌, ◌<◌, eqb, [], ◌∷◌, length, map, true, false, IfOk, IfSome, IfNone};
ghost use Rattle.grammar.specs.Grammar.{Leaf, Left, Right, has, optional, ◌▸◌};
ghost use Rattle.grammar.specs.Reading.{Got, begins};
ghost use Rattle.c_grammar.specs.Symbols.{class_of_symbol, name_class, number_class};
ghost use Rattle.c_grammar.specs.declared.symbol.Symbol.TheVariants.{Int, Unsigned};
ghost use Rattle.c_grammar.specs.Next.{classes, type_firsts};
ghost use Rattle.c_grammar.specs.Written.{name, number, one_of, signs, spelled, type, type_words};
ghost use Rattle.c_expression.specs.Lexemes.{first_place, is_spelled, name_of, number_of, place_at, sign_class, sign_of, type_class, type_of};
ghost use Rattle.c_expression.specs.Reads.{Gives, class_at, reads, tree_at, written_at};

use crate::stop::Stop;
use c_grammar::symbol::{
    Symbol, is_name as token_is_name, is_number as token_is_number, is_spelled as token_is,
};
use c_lex::token::{Token, TokenKind};
use c_unit::expression::{Number, TypeName, UnaryOperator};
use chk_base::place::Place;
use chk_base::text::Name;
use std::alloc::{AllocError, Global};

/// Is the token this word or mark?
#[tactic(auto, unfolding(c_grammar::specs::Next::lookahead))]
pub fn is(token: &Token, symbol: Symbol) -> bool
    ensures { result ≡ is_spelled symbol token.now }
{
    token_is(token, symbol)
}

/// Does this word or mark come next?
#[tactic(auto, using(crate::proofs::Opened::or_false))]
pub fn begins(tokens: &[Token], symbol: Symbol) -> bool
    ensures { result ≡ begins class_at (class_of_symbol symbol ∷ []) tokens.now }
{
    match tokens {
        [first, ..] => is(first, symbol),
        [] => false,
    }
}

/// Does one of these words and marks come next?
pub fn begins_among(tokens: &[Token], symbols: &[Symbol]) -> bool
    ensures { result ≡ begins class_at (map class_of_symbol symbols.now) tokens.now }
{
    match tokens {
        [first, ..] => is_among(first, symbols),
        [] => false,
    }
}

fn is_among(token: &Token, symbols: &[Symbol]) -> bool
    ensures { result ≡ has (map class_of_symbol symbols.now) (class_at token.now) }
{
    match symbols {
        [symbol, rest @ ..] => is(token, *symbol) || is_among(token, rest),
        [] => false,
    }
}

/// Does a name come next?
#[tactic(auto, using(crate::proofs::Opened::or_false), unfolding(c_grammar::specs::Next::lookahead))]
pub fn begins_name(tokens: &[Token]) -> bool
    ensures { result ≡ begins class_at (name_class ∷ []) tokens.now }
{
    match tokens {
        [first, ..] => token_is_name(first),
        [] => false,
    }
}

/// Does a number come next?
#[tactic(auto, using(crate::proofs::Opened::or_false), unfolding(c_grammar::specs::Next::lookahead))]
pub fn begins_number(tokens: &[Token]) -> bool
    ensures { result ≡ begins class_at (number_class ∷ []) tokens.now }
{
    match tokens {
        [first, ..] => token_is_number(first),
        [] => false,
    }
}

/// A word or mark, with its place.
#[tactic(auto, using(crate::proofs::Opened::or_false), unfolding(crate::specs::Reads::tree_at))]
pub fn symbol(tokens: &[Token], symbol: Symbol) -> Result<(Place, &[Token]), Stop>
    ensures gives { Gives (λ x. x.1.now) result (spelled symbol) tokens.now }
    ensures means { IfOk result (λ x. place_at (written_at (spelled symbol) tokens.now) ≡ x.0) }
    ensures shorter { IfOk result (λ x. length x.1.now < length tokens.now) }
{
    match tokens {
        [first, rest @ ..] => {
            if is(first, symbol) {
                Ok((first.place, rest))
            } else {
                Err(Stop::At(tokens))
            }
        }
        [] => Err(Stop::At(tokens)),
    }
}

fn name_in(alloc: Global, token: &Token) -> Result<Name, AllocError>
    ensures { IfOk result (λ x. x ≡ record { text = token.now.text; place = token.now.place }) }
{
    Ok(Name {
        text: token.text.copy(alloc)?,
        place: token.place,
    })
}

#[tactic(auto, unfolding(c_grammar::specs::Next::lookahead))]
fn is_name(token: &Token) -> bool
    ensures { result ≡ eqb name_class (class_at token.now) }
{
    token_is_name(token)
}

/// A name.
#[tactic(auto, using(crate::proofs::Opened::or_false), unfolding(crate::specs::Reads::tree_at))]
pub fn name(alloc: Global, tokens: &[Token]) -> Result<(Name, &[Token]), Stop>
    ensures gives { Gives (λ x. x.1.now) result name tokens.now }
    ensures means { IfOk result (λ x. name_of (written_at name tokens.now) ≡ x.0) }
    ensures shorter { IfOk result (λ x. length x.1.now < length tokens.now) }
{
    match tokens {
        [first, rest @ ..] => {
            if is_name(first) {
                Ok((name_in(alloc, first)?, rest))
            } else {
                Err(Stop::At(tokens))
            }
        }
        [] => Err(Stop::At(tokens)),
    }
}

#[tactic(auto, using(c_grammar::proofs::Spelling::no_number), unfolding(c_grammar::specs::Next::lookahead))]
fn number_in(token: &Token) -> Option<Number>
    ensures some { IfSome result (λ x. number_of (Leaf token.now) ≡ x) }
    ensures is_number { IfSome result (λ x. eqb number_class (class_at token.now) ≡ true) }
    ensures none { IfNone result (eqb number_class (class_at token.now) ≡ false) }
{
    match token.kind {
        TokenKind::Name => None,
        TokenKind::Number { bits, unsigned } => Some(Number {
            place: token.place,
            bits,
            unsigned,
        }),
        TokenKind::Word => None,
        TokenKind::Mark => None,
    }
}

/// A number.
#[tactic(auto, using(crate::proofs::Opened::or_false), unfolding(crate::specs::Reads::tree_at))]
pub fn number(tokens: &[Token]) -> Result<(Number, &[Token]), Stop>
    ensures gives { Gives (λ x. x.1.now) result number tokens.now }
    ensures means { IfOk result (λ x. number_of (written_at number tokens.now) ≡ x.0) }
    ensures shorter { IfOk result (λ x. length x.1.now < length tokens.now) }
{
    match tokens {
        [first, rest @ ..] => match number_in(first) {
            Some(number) => Ok((number, rest)),
            None => Err(Stop::At(tokens)),
        },
        [] => Err(Stop::At(tokens)),
    }
}

/// What the token means, where it is this word or mark.
pub(crate) fn meaning<M: Copy>(token: &Token, symbol: Symbol, meaning: M) -> Option<M>
    ensures some { IfSome result (λ x. (x ≡ meaning) × (class_at token.now ≡ class_of_symbol symbol)) }
    ensures none { IfNone result (eqb (class_of_symbol symbol) (class_at token.now) ≡ false) }
{
    if is(token, symbol) {
        Some(meaning)
    } else {
        None
    }
}

/// The type that the word names, if it names one.
#[tactic(auto, using(crate::proofs::Opened::type_class_at))]
fn type_word(token: &Token) -> Option<TypeName>
    ensures some { IfSome result (λ x. type_class (class_at token.now) ≡ x) }
    ensures found { IfSome result (λ x. has (classes type_words) (class_at token.now) ≡ true) }
    ensures none { IfNone result (has (classes type_words) (class_at token.now) ≡ false) }
{
    if let Some(found) = meaning(token, Symbol::Int8, TypeName::Int8) {
        return Some(found);
    }
    if let Some(found) = meaning(token, Symbol::Int16, TypeName::Int16) {
        return Some(found);
    }
    if let Some(found) = meaning(token, Symbol::Int32, TypeName::Int32) {
        return Some(found);
    }
    if let Some(found) = meaning(token, Symbol::Uint8, TypeName::Uint8) {
        return Some(found);
    }
    if let Some(found) = meaning(token, Symbol::Uint16, TypeName::Uint16) {
        return Some(found);
    }
    if let Some(found) = meaning(token, Symbol::Uint32, TypeName::Uint32) {
        return Some(found);
    }
    if let Some(found) = meaning(token, Symbol::Bool, TypeName::Bool) {
        return Some(found);
    }
    if let Some(found) = meaning(token, Symbol::UnderscoreBool, TypeName::Bool) {
        return Some(found);
    }
    meaning(token, Symbol::Int, TypeName::Int32)
}

/// The type that one word names.
#[tactic(auto, unfolding(crate::specs::Reads::tree_at))]
fn short_type(tokens: &[Token]) -> Option<(TypeName, &[Token])>
    ensures gives { IfSome result (λ x. reads (one_of type_words) tokens.now ≡ Got (tree_at (one_of type_words) tokens.now) x.1.now) }
    ensures means { IfSome result (λ x. type_of (Left (written_at (one_of type_words) tokens.now)) ≡ x.0) }
    ensures begins { IfSome result (λ x. begins class_at (classes type_words) tokens.now ≡ true) }
    ensures none { IfNone result (begins class_at (classes type_words) tokens.now ≡ false) }
    ensures shorter { IfSome result (λ x. length x.1.now < length tokens.now) }
{
    match tokens {
        [first, rest @ ..] => match type_word(first) {
            Some(type_name) => Some((type_name, rest)),
            None => None,
        },
        [] => None,
    }
}

/// `unsigned` or `unsigned int`.
#[tactic(auto, using(crate::proofs::Opened::tree_at_is))]
fn unsigned_type(tokens: &[Token]) -> Result<(TypeName, &[Token]), Stop>
    ensures gives { Gives (λ x. x.1.now) result (spelled Unsigned ▸ optional (spelled Int)) tokens.now }
    ensures means { IfOk result (λ x. type_of (Right (written_at (spelled Unsigned ▸ optional (spelled Int)) tokens.now)) ≡ x.0) }
    ensures shorter { IfOk result (λ x. length x.1.now < length tokens.now) }
{
    let (_, rest) = symbol(tokens, Symbol::Unsigned)?;
    if begins(rest, Symbol::Int) {
        let (_, rest) = symbol(rest, Symbol::Int)?;
        return Ok((TypeName::Uint32, rest));
    }
    Ok((TypeName::Uint32, rest))
}

/// A type.
#[tactic(auto, using(crate::proofs::Opened::tree_at_is))]
pub fn type_name(tokens: &[Token]) -> Result<(TypeName, &[Token]), Stop>
    ensures gives { Gives (λ x. x.1.now) result type tokens.now }
    ensures means { IfOk result (λ x. type_of (written_at type tokens.now) ≡ x.0) }
    ensures shorter { IfOk result (λ x. length x.1.now < length tokens.now) }
{
    if let Some((type_name, rest)) = short_type(tokens) {
        return Ok((type_name, rest));
    }
    unsigned_type(tokens)
}

/// Does a type come next?
pub fn begins_type(tokens: &[Token]) -> bool
    ensures { result ≡ begins class_at type_firsts tokens.now }
{
    begins_among(
        tokens,
        &[
            Symbol::Int8,
            Symbol::Int16,
            Symbol::Int32,
            Symbol::Uint8,
            Symbol::Uint16,
            Symbol::Uint32,
            Symbol::Bool,
            Symbol::UnderscoreBool,
            Symbol::Int,
            Symbol::Unsigned,
        ],
    )
}

/// The sign before a unary that the mark is, if it is one.
#[tactic(auto, using(crate::proofs::Opened::sign_class_at))]
fn sign_word(token: &Token) -> Option<UnaryOperator>
    ensures some { IfSome result (λ x. sign_class (class_at token.now) ≡ x) }
    ensures found { IfSome result (λ x. has (classes signs) (class_at token.now) ≡ true) }
    ensures none { IfNone result (has (classes signs) (class_at token.now) ≡ false) }
{
    if let Some(found) = meaning(token, Symbol::Minus, UnaryOperator::Minus) {
        return Some(found);
    }
    if let Some(found) = meaning(token, Symbol::Plus, UnaryOperator::Plus) {
        return Some(found);
    }
    if let Some(found) = meaning(token, Symbol::Exclamation, UnaryOperator::Not) {
        return Some(found);
    }
    meaning(token, Symbol::Tilde, UnaryOperator::Complement)
}

/// The sign before a unary, if one comes next, with its place.
#[tactic(auto, unfolding(crate::specs::Reads::tree_at))]
pub(crate) fn sign(tokens: &[Token]) -> Option<(Place, UnaryOperator, &[Token])>
    ensures gives { IfSome result (λ x. reads (one_of signs) tokens.now ≡ Got (tree_at (one_of signs) tokens.now) x.2.now) }
    ensures place { IfSome result (λ x. place_at (written_at (one_of signs) tokens.now) ≡ x.0) }
    ensures means { IfSome result (λ x. sign_of (written_at (one_of signs) tokens.now) ≡ x.1) }
    ensures begins { IfSome result (λ x. begins class_at (classes signs) tokens.now ≡ true) }
    ensures none { IfNone result (begins class_at (classes signs) tokens.now ≡ false) }
    ensures shorter { IfSome result (λ x. length x.2.now < length tokens.now) }
{
    match tokens {
        [first, rest @ ..] => match sign_word(first) {
            Some(sign) => Some((first.place, sign, rest)),
            None => None,
        },
        [] => None,
    }
}

/// The place of the next token.
pub fn place_here(tokens: &[Token]) -> Place
    ensures { result ≡ first_place tokens.now }
{
    match tokens {
        [first, ..] => first.place,
        [] => Place {
            line: 0,
            column: 0,
            offset: 0,
        },
    }
}
