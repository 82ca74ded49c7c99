// Expressions, calls and types as they are written.
use chk_base::place::Place;
use chk_base::text::Name;
use sqlite_items::{Boxed, Items};

/// A type that a declaration or a cast names: `int` is `int32_t`, `unsigned` and `unsigned int` are `uint32_t`, `_Bool` is `bool`
/// (ISO/IEC 9899:1999, 6.7.2 and 7.18.1.1).
#[derive(Clone, Copy, PartialEq, Eq, Debug)]
pub enum TypeName {
    Int8,
    Int16,
    Int32,
    Uint8,
    Uint16,
    Uint32,
    Bool,
}

/// The operators before an operand: `-`, `+`, `!`, `~` (ISO/IEC 9899:1999, 6.5.3.3).
#[derive(Clone, Copy, PartialEq, Eq, Debug)]
pub enum UnaryOperator {
    Minus,
    Plus,
    Not,
    Complement,
}

/// The operators between two operands: `*` `/` `%`, `+` `-`, `<<` `>>`, `<` `<=` `>` `>=`, `==` `!=`, `&`, `^`, `|`, `&&`, `||`
/// (ISO/IEC 9899:1999, 6.5.5 to 6.5.14).
#[derive(Clone, Copy, PartialEq, Eq, Debug)]
pub enum BinaryOperator {
    Multiply,
    Divide,
    Remainder,
    Add,
    Subtract,
    ShiftLeft,
    ShiftRight,
    Less,
    LessEqual,
    Greater,
    GreaterEqual,
    Equal,
    NotEqual,
    And,
    Xor,
    Or,
    LogicalAnd,
    LogicalOr,
}

/// A number as it is written: its value, and whether its type is unsigned.
#[derive(Clone, Copy, PartialEq, Eq, Debug)]
pub struct Number {
    pub place: Place,
    pub bits: u32,
    pub unsigned: bool,
}

/// An expression (ISO/IEC 9899:1999, 6.5). Its place is that of its operator where one stands between operands, and else of its first token.
#[derive(Drop)]
pub enum Expression {
    Number(Number),
    Truth(Place, bool),
    /// A name that stands for its value.
    Variable(Name),
    /// A name with an index.
    Element(Name, Boxed<Expression>),
    Parenthesis(Place, Boxed<Expression>),
    Unary(Place, UnaryOperator, Boxed<Expression>),
    Cast(Place, TypeName, Boxed<Expression>),
    Binary(Place, BinaryOperator, Boxed<Expression>, Boxed<Expression>),
    /// The condition, the value where it isn't 0, and the value where it is, at the place of the `?`.
    Conditional(Place, Boxed<Expression>, Boxed<Expression>, Boxed<Expression>),
}

/// An argument of a call, at the place of its first token.
#[derive(Drop)]
pub struct Argument {
    pub place: Place,
    pub value: Expression,
}

pub type Arguments = Items<Argument>;

/// A call of what the name stands for, by its name and arguments.
#[derive(Drop)]
pub struct Call {
    pub name: Name,
    pub arguments: Arguments,
}

/// What follows `=` in an assignment or a local's declaration: a value, or a call whose result is taken.
#[derive(Drop)]
pub enum RightSide {
    Value(Expression),
    Call(Call),
}
