// The words and marks of the grammar.
ghost use Rattle.std.specs.Prelude.{◌≡◌, eqb};
ghost use Rattle.c_grammar.specs.Symbols.{class_of, class_of_symbol, name_class, number_class, text_of};

use c_lex::token::{Token, TokenKind};

/// A reserved word or mark that the grammar names (ISO/IEC 9899:1999, 6.4.1 and 6.4.6, and the words of this profile).
#[derive(Clone, Copy, PartialEq, Eq, Debug)]
pub enum Symbol {
    True,
    False,
    Static,
    Const,
    Volatile,
    Int8,
    Int16,
    Int32,
    Uint8,
    Uint16,
    Uint32,
    Bool,
    UnderscoreBool,
    Int,
    Unsigned,
    Void,
    Task,
    Isr,
    DeclareTask,
    DeclareResource,
    If,
    Else,
    While,
    For,
    Return,
    Assert,
    LeftParenthesis,
    RightParenthesis,
    LeftBracket,
    RightBracket,
    LeftBrace,
    RightBrace,
    Semicolon,
    Comma,
    Question,
    Colon,
    Assign,
    PlusAssign,
    MinusAssign,
    StarAssign,
    SlashAssign,
    PercentAssign,
    AmpersandAssign,
    BarAssign,
    CaretAssign,
    LeftShiftAssign,
    RightShiftAssign,
    PlusPlus,
    MinusMinus,
    BarBar,
    AmpersandAmpersand,
    Bar,
    Caret,
    Ampersand,
    Equal,
    NotEqual,
    Less,
    LessEqual,
    Greater,
    GreaterEqual,
    LeftShift,
    RightShift,
    Plus,
    Minus,
    Star,
    Slash,
    Percent,
    Exclamation,
    Tilde,
}

impl Symbol {
    /// The bytes that spell it.
    pub fn text(self) -> &'static [u8]
        ensures { result.now ≡ text_of self }
    {
        match self {
            Symbol::True => b"true",
            Symbol::False => b"false",
            Symbol::Static => b"static",
            Symbol::Const => b"const",
            Symbol::Volatile => b"volatile",
            Symbol::Int8 => b"int8_t",
            Symbol::Int16 => b"int16_t",
            Symbol::Int32 => b"int32_t",
            Symbol::Uint8 => b"uint8_t",
            Symbol::Uint16 => b"uint16_t",
            Symbol::Uint32 => b"uint32_t",
            Symbol::Bool => b"bool",
            Symbol::UnderscoreBool => b"_Bool",
            Symbol::Int => b"int",
            Symbol::Unsigned => b"unsigned",
            Symbol::Void => b"void",
            Symbol::Task => b"TASK",
            Symbol::Isr => b"ISR",
            Symbol::DeclareTask => b"DeclareTask",
            Symbol::DeclareResource => b"DeclareResource",
            Symbol::If => b"if",
            Symbol::Else => b"else",
            Symbol::While => b"while",
            Symbol::For => b"for",
            Symbol::Return => b"return",
            Symbol::Assert => b"assert",
            Symbol::LeftParenthesis => b"(",
            Symbol::RightParenthesis => b")",
            Symbol::LeftBracket => b"[",
            Symbol::RightBracket => b"]",
            Symbol::LeftBrace => b"{",
            Symbol::RightBrace => b"}",
            Symbol::Semicolon => b";",
            Symbol::Comma => b",",
            Symbol::Question => b"?",
            Symbol::Colon => b":",
            Symbol::Assign => b"=",
            Symbol::PlusAssign => b"+=",
            Symbol::MinusAssign => b"-=",
            Symbol::StarAssign => b"*=",
            Symbol::SlashAssign => b"/=",
            Symbol::PercentAssign => b"%=",
            Symbol::AmpersandAssign => b"&=",
            Symbol::BarAssign => b"|=",
            Symbol::CaretAssign => b"^=",
            Symbol::LeftShiftAssign => b"<<=",
            Symbol::RightShiftAssign => b">>=",
            Symbol::PlusPlus => b"++",
            Symbol::MinusMinus => b"--",
            Symbol::BarBar => b"||",
            Symbol::AmpersandAmpersand => b"&&",
            Symbol::Bar => b"|",
            Symbol::Caret => b"^",
            Symbol::Ampersand => b"&",
            Symbol::Equal => b"==",
            Symbol::NotEqual => b"!=",
            Symbol::Less => b"<",
            Symbol::LessEqual => b"<=",
            Symbol::Greater => b">",
            Symbol::GreaterEqual => b">=",
            Symbol::LeftShift => b"<<",
            Symbol::RightShift => b">>",
            Symbol::Plus => b"+",
            Symbol::Minus => b"-",
            Symbol::Star => b"*",
            Symbol::Slash => b"/",
            Symbol::Percent => b"%",
            Symbol::Exclamation => b"!",
            Symbol::Tilde => b"~",
        }
    }
}

/// Is the token this word or mark? A name is none, and a number, however it is spelled.
#[tactic(auto, using(crate::proofs::Spelling::spelled_is, crate::proofs::Spelling::not_name, crate::proofs::Spelling::not_number))]
pub fn is_spelled(token: &Token, symbol: Symbol) -> bool
    ensures { result ≡ eqb (class_of_symbol symbol) (class_of token.now) }
{
    match token.kind {
        TokenKind::Name => false,
        TokenKind::Number { .. } => false,
        TokenKind::Word => token.text.as_bytes() == symbol.text(),
        TokenKind::Mark => token.text.as_bytes() == symbol.text(),
    }
}

/// Is the token a name?
#[tactic(auto, using(crate::proofs::Spelling::no_name))]
pub fn is_name(token: &Token) -> bool
    ensures { result ≡ eqb name_class (class_of token.now) }
{
    match token.kind {
        TokenKind::Name => true,
        TokenKind::Number { .. } => false,
        TokenKind::Word => false,
        TokenKind::Mark => false,
    }
}

/// Is the token a number? A name that stands for one is.
#[tactic(auto, using(crate::proofs::Spelling::no_number))]
pub fn is_number(token: &Token) -> bool
    ensures { result ≡ eqb number_class (class_of token.now) }
{
    match token.kind {
        TokenKind::Name => false,
        TokenKind::Number { .. } => true,
        TokenKind::Word => false,
        TokenKind::Mark => false,
    }
}
