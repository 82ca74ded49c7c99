// How deep a text is nested.
ghost use Rattle.std.specs.Prelude.{◌≡◌, ◌≤◌, ◌||◌, [], ◌∷◌, List, nat_le, not, IfSome, IfNone};
ghost use Rattle.c_lex.specs.declared.token.Token as lexed;
ghost use Rattle.c_parse.specs.Depth.{IsDepthFault, IsShallow, deepening, ending, is_one, more_marks, more_open};

use c_grammar::symbol::{Symbol, is_spelled};
use c_lex::token::Token;
use chk_base::place::Place;

/// Is the token one of these words and marks?
fn is_one(token: &Token, symbols: &[Symbol]) -> bool
    ensures { result ≡ is_one symbols.now token.now }
{
    match symbols {
        [first, rest @ ..] => is_spelled(token, *first) || is_one(token, rest),
        [] => false,
    }
}

/// Is the token a mark that deepens an expression?
fn deepens(token: &Token) -> bool
    ensures { result ≡ is_one deepening token.now }
{
    is_one(
        token,
        &[
            Symbol::LeftParenthesis,
            Symbol::LeftBracket,
            Symbol::Question,
            Symbol::Assign,
            Symbol::PlusAssign,
            Symbol::MinusAssign,
            Symbol::StarAssign,
            Symbol::SlashAssign,
            Symbol::PercentAssign,
            Symbol::AmpersandAssign,
            Symbol::BarAssign,
            Symbol::CaretAssign,
            Symbol::LeftShiftAssign,
            Symbol::RightShiftAssign,
            Symbol::PlusPlus,
            Symbol::MinusMinus,
            Symbol::BarBar,
            Symbol::AmpersandAmpersand,
            Symbol::Bar,
            Symbol::Caret,
            Symbol::Ampersand,
            Symbol::Equal,
            Symbol::NotEqual,
            Symbol::Less,
            Symbol::LessEqual,
            Symbol::Greater,
            Symbol::GreaterEqual,
            Symbol::LeftShift,
            Symbol::RightShift,
            Symbol::Plus,
            Symbol::Minus,
            Symbol::Star,
            Symbol::Slash,
            Symbol::Percent,
            Symbol::Exclamation,
            Symbol::Tilde,
        ],
    )
}

/// How many `{` are open after one more token.
fn more_open(braces: u32, token: &Token) -> u32
    requires { braces ≤ 64 }
    ensures { result ≡ more_open braces token.now }
{
    if is_one(token, &[Symbol::LeftBrace]) {
        return braces + 1;
    }
    if is_one(token, &[Symbol::RightBrace]) {
        return braces.saturating_sub(1);
    }
    braces
}

/// How many deepening marks stand since the last ending one, after one more token.
fn more_marks(marks: u32, token: &Token) -> u32
    requires { marks ≤ 64 }
    ensures { result ≡ more_marks marks token.now }
{
    if is_one(
        token,
        &[Symbol::Semicolon, Symbol::LeftBrace, Symbol::RightBrace],
    ) {
        return 0;
    }
    if deepens(token) { marks + 1 } else { marks }
}

/// Is one of the two counts above 64?
fn is_deep(braces: u32, marks: u32) -> bool
    ensures { result ≡ (not (nat_le braces 64) || not (nat_le marks 64)) }
{
    braces > 64 || marks > 64
}

/// The place of the first token with which more is nested than is read, if there is one.
pub(crate) fn too_deep(tokens: &[Token]) -> Option<Place>
    ensures some { IfSome result (λ place. (bad : lexed.Token) × (rest : List lexed.Token) × (bad.place ≡ place) × IsDepthFault tokens.now bad rest) }
    ensures none { IfNone result (IsShallow tokens.now) }
{
    let mut braces = 0u32;
    let mut marks = 0u32;
    'each: for token in tokens {
        braces = more_open(braces, token);
        marks = more_marks(marks, token);
        if is_deep(braces, marks) {
            return Some(token.place);
        }
    }
    None
}
