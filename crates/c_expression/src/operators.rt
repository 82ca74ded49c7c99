// Readers of the operators between operands.
ghost use Rattle.std.specs.Prelude.{◌≡◌, ◌<◌, length, true, false, IfSome, IfNone};
ghost use Rattle.grammar.specs.Grammar.{has};
ghost use Rattle.grammar.specs.Reading.{Got, begins};
ghost use Rattle.c_grammar.specs.Next.{classes};
ghost use Rattle.c_grammar.specs.Written.{assignments, one_of, operators};
ghost use Rattle.c_expression.specs.Lexemes.{assigned_class, assigned_of, binary_class, binary_of, place_at};
ghost use Rattle.c_expression.specs.Reads.{class_at, reads, tree_at, written_at};

use crate::lexeme::meaning;
use c_grammar::symbol::Symbol;
use c_lex::token::Token;
use c_unit::expression::BinaryOperator;
use chk_base::place::Place;

/// `*`, `/` or `%`, if the token is one of them.
#[tactic(auto, using(crate::proofs::Opened::binary_class_at))]
fn multiplicative(token: &Token) -> Option<BinaryOperator>
    ensures some { IfSome result (λ x. binary_class (class_at token.now) ≡ x) }
    ensures found { IfSome result (λ x. has (classes (operators 0)) (class_at token.now) ≡ true) }
    ensures none { IfNone result (has (classes (operators 0)) (class_at token.now) ≡ false) }
{
    if let Some(found) = meaning(token, Symbol::Star, BinaryOperator::Multiply) {
        return Some(found);
    }
    if let Some(found) = meaning(token, Symbol::Slash, BinaryOperator::Divide) {
        return Some(found);
    }
    meaning(token, Symbol::Percent, BinaryOperator::Remainder)
}

/// `+` or `-`, if the token is one of them.
#[tactic(auto, using(crate::proofs::Opened::binary_class_at))]
fn additive(token: &Token) -> Option<BinaryOperator>
    ensures some { IfSome result (λ x. binary_class (class_at token.now) ≡ x) }
    ensures found { IfSome result (λ x. has (classes (operators 1)) (class_at token.now) ≡ true) }
    ensures none { IfNone result (has (classes (operators 1)) (class_at token.now) ≡ false) }
{
    if let Some(found) = meaning(token, Symbol::Plus, BinaryOperator::Add) {
        return Some(found);
    }
    meaning(token, Symbol::Minus, BinaryOperator::Subtract)
}

/// `<<` or `>>`, if the token is one of them.
#[tactic(auto, using(crate::proofs::Opened::binary_class_at))]
fn shift(token: &Token) -> Option<BinaryOperator>
    ensures some { IfSome result (λ x. binary_class (class_at token.now) ≡ x) }
    ensures found { IfSome result (λ x. has (classes (operators 2)) (class_at token.now) ≡ true) }
    ensures none { IfNone result (has (classes (operators 2)) (class_at token.now) ≡ false) }
{
    if let Some(found) = meaning(token, Symbol::LeftShift, BinaryOperator::ShiftLeft) {
        return Some(found);
    }
    meaning(token, Symbol::RightShift, BinaryOperator::ShiftRight)
}

/// `<`, `<=`, `>` or `>=`, if the token is one of them.
#[tactic(auto, using(crate::proofs::Opened::binary_class_at))]
fn relational(token: &Token) -> Option<BinaryOperator>
    ensures some { IfSome result (λ x. binary_class (class_at token.now) ≡ x) }
    ensures found { IfSome result (λ x. has (classes (operators 3)) (class_at token.now) ≡ true) }
    ensures none { IfNone result (has (classes (operators 3)) (class_at token.now) ≡ false) }
{
    if let Some(found) = meaning(token, Symbol::Less, BinaryOperator::Less) {
        return Some(found);
    }
    if let Some(found) = meaning(token, Symbol::LessEqual, BinaryOperator::LessEqual) {
        return Some(found);
    }
    if let Some(found) = meaning(token, Symbol::Greater, BinaryOperator::Greater) {
        return Some(found);
    }
    meaning(token, Symbol::GreaterEqual, BinaryOperator::GreaterEqual)
}

/// `==` or `!=`, if the token is one of them.
#[tactic(auto, using(crate::proofs::Opened::binary_class_at))]
fn equality(token: &Token) -> Option<BinaryOperator>
    ensures some { IfSome result (λ x. binary_class (class_at token.now) ≡ x) }
    ensures found { IfSome result (λ x. has (classes (operators 4)) (class_at token.now) ≡ true) }
    ensures none { IfNone result (has (classes (operators 4)) (class_at token.now) ≡ false) }
{
    if let Some(found) = meaning(token, Symbol::Equal, BinaryOperator::Equal) {
        return Some(found);
    }
    meaning(token, Symbol::NotEqual, BinaryOperator::NotEqual)
}

/// `&`, if the token is it.
#[tactic(auto, using(crate::proofs::Opened::binary_class_at))]
fn bit_and(token: &Token) -> Option<BinaryOperator>
    ensures some { IfSome result (λ x. binary_class (class_at token.now) ≡ x) }
    ensures found { IfSome result (λ x. has (classes (operators 5)) (class_at token.now) ≡ true) }
    ensures none { IfNone result (has (classes (operators 5)) (class_at token.now) ≡ false) }
{
    meaning(token, Symbol::Ampersand, BinaryOperator::And)
}

/// `^`, if the token is it.
#[tactic(auto, using(crate::proofs::Opened::binary_class_at))]
fn bit_xor(token: &Token) -> Option<BinaryOperator>
    ensures some { IfSome result (λ x. binary_class (class_at token.now) ≡ x) }
    ensures found { IfSome result (λ x. has (classes (operators 6)) (class_at token.now) ≡ true) }
    ensures none { IfNone result (has (classes (operators 6)) (class_at token.now) ≡ false) }
{
    meaning(token, Symbol::Caret, BinaryOperator::Xor)
}

/// `|`, if the token is it.
#[tactic(auto, using(crate::proofs::Opened::binary_class_at))]
fn bit_or(token: &Token) -> Option<BinaryOperator>
    ensures some { IfSome result (λ x. binary_class (class_at token.now) ≡ x) }
    ensures found { IfSome result (λ x. has (classes (operators 7)) (class_at token.now) ≡ true) }
    ensures none { IfNone result (has (classes (operators 7)) (class_at token.now) ≡ false) }
{
    meaning(token, Symbol::Bar, BinaryOperator::Or)
}

/// `&&`, if the token is it.
#[tactic(auto, using(crate::proofs::Opened::binary_class_at))]
fn logical_and(token: &Token) -> Option<BinaryOperator>
    ensures some { IfSome result (λ x. binary_class (class_at token.now) ≡ x) }
    ensures found { IfSome result (λ x. has (classes (operators 8)) (class_at token.now) ≡ true) }
    ensures none { IfNone result (has (classes (operators 8)) (class_at token.now) ≡ false) }
{
    meaning(
        token,
        Symbol::AmpersandAmpersand,
        BinaryOperator::LogicalAnd,
    )
}

/// `||`, if the token is it.
#[tactic(auto, using(crate::proofs::Opened::binary_class_at))]
fn logical_or(token: &Token) -> Option<BinaryOperator>
    ensures some { IfSome result (λ x. binary_class (class_at token.now) ≡ x) }
    ensures found { IfSome result (λ x. has (classes (operators 9)) (class_at token.now) ≡ true) }
    ensures none { IfNone result (has (classes (operators 9)) (class_at token.now) ≡ false) }
{
    meaning(token, Symbol::BarBar, BinaryOperator::LogicalOr)
}

/// The operator of an assignment such as `+=`, if the token is one.
#[tactic(auto, using(crate::proofs::Opened::assigned_class_at))]
fn assigned_word(token: &Token) -> Option<BinaryOperator>
    ensures some { IfSome result (λ x. assigned_class (class_at token.now) ≡ x) }
    ensures found { IfSome result (λ x. has (classes assignments) (class_at token.now) ≡ true) }
    ensures none { IfNone result (has (classes assignments) (class_at token.now) ≡ false) }
{
    if let Some(found) = meaning(token, Symbol::PlusAssign, BinaryOperator::Add) {
        return Some(found);
    }
    if let Some(found) = meaning(token, Symbol::MinusAssign, BinaryOperator::Subtract) {
        return Some(found);
    }
    if let Some(found) = meaning(token, Symbol::StarAssign, BinaryOperator::Multiply) {
        return Some(found);
    }
    if let Some(found) = meaning(token, Symbol::SlashAssign, BinaryOperator::Divide) {
        return Some(found);
    }
    if let Some(found) = meaning(token, Symbol::PercentAssign, BinaryOperator::Remainder) {
        return Some(found);
    }
    if let Some(found) = meaning(token, Symbol::AmpersandAssign, BinaryOperator::And) {
        return Some(found);
    }
    if let Some(found) = meaning(token, Symbol::BarAssign, BinaryOperator::Or) {
        return Some(found);
    }
    if let Some(found) = meaning(token, Symbol::CaretAssign, BinaryOperator::Xor) {
        return Some(found);
    }
    if let Some(found) = meaning(token, Symbol::LeftShiftAssign, BinaryOperator::ShiftLeft) {
        return Some(found);
    }
    meaning(token, Symbol::RightShiftAssign, BinaryOperator::ShiftRight)
}

/// The operator of a level that the token is, if it is one.
fn operator_word(token: &Token, level: u8) -> Option<BinaryOperator>
    requires { level < 10 }
    ensures some { IfSome result (λ x. binary_class (class_at token.now) ≡ x) }
    ensures found { IfSome result (λ x. has (classes (operators level)) (class_at token.now) ≡ true) }
    ensures none { IfNone result (has (classes (operators level)) (class_at token.now) ≡ false) }
{
    match level {
        0 => multiplicative(token),
        1 => additive(token),
        2 => shift(token),
        3 => relational(token),
        4 => equality(token),
        5 => bit_and(token),
        6 => bit_xor(token),
        7 => bit_or(token),
        8 => logical_and(token),
        _ => logical_or(token),
    }
}

/// The operator of a level, if one comes next, with its place.
#[tactic(auto, unfolding(crate::specs::Reads::tree_at))]
pub(crate) fn operator(tokens: &[Token], level: u8) -> Option<(Place, BinaryOperator, &[Token])>
    requires { level < 10 }
    ensures gives { IfSome result (λ x. reads (one_of (operators level)) tokens.now ≡ Got (tree_at (one_of (operators level)) tokens.now) x.2.now) }
    ensures place { IfSome result (λ x. place_at (written_at (one_of (operators level)) tokens.now) ≡ x.0) }
    ensures means { IfSome result (λ x. binary_of (written_at (one_of (operators level)) tokens.now) ≡ x.1) }
    ensures begins { IfSome result (λ x. begins class_at (classes (operators level)) tokens.now ≡ true) }
    ensures none { IfNone result (begins class_at (classes (operators level)) tokens.now ≡ false) }
    ensures shorter { IfSome result (λ x. length x.2.now < length tokens.now) }
{
    match tokens {
        [first, rest @ ..] => match operator_word(first, level) {
            Some(binary) => Some((first.place, binary, rest)),
            None => None,
        },
        [] => None,
    }
}

/// The operator of an assignment such as `+=`, if one comes next.
#[tactic(auto, unfolding(crate::specs::Reads::tree_at))]
pub fn assigned(tokens: &[Token]) -> Option<(BinaryOperator, &[Token])>
    ensures gives { IfSome result (λ x. reads (one_of assignments) tokens.now ≡ Got (tree_at (one_of assignments) tokens.now) x.1.now) }
    ensures means { IfSome result (λ x. assigned_of (written_at (one_of assignments) tokens.now) ≡ x.0) }
    ensures begins { IfSome result (λ x. begins class_at (classes assignments) tokens.now ≡ true) }
    ensures none { IfNone result (begins class_at (classes assignments) tokens.now ≡ false) }
    ensures shorter { IfSome result (λ x. length x.1.now < length tokens.now) }
{
    match tokens {
        [first, rest @ ..] => match assigned_word(first) {
            Some(binary) => Some((binary, rest)),
            None => None,
        },
        [] => None,
    }
}
