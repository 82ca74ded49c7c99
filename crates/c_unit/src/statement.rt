// Statements as they are written.
use crate::expression::{BinaryOperator, Call, Expression, RightSide, TypeName};
use chk_base::place::Place;
use chk_base::text::Name;
use sqlite_items::Items;

/// A statement without statements in it. Its place is that of its name where it begins with one.
#[derive(Drop)]
pub enum Simple {
    /// `name = right`
    Assign(Name, RightSide),
    /// `name[index] = value`
    AssignElement(Name, Expression, Expression),
    /// `name += value` and its kin, with the operator that is meant
    Update(Name, BinaryOperator, Expression),
    /// `name++`
    PostIncrement(Name),
    /// `name--`
    PostDecrement(Name),
    /// `++name`
    PreIncrement(Place, Name),
    /// `--name`
    PreDecrement(Place, Name),
    Call(Call),
    /// `assert(condition)`
    Assert(Place, Expression),
}

/// A declared local, and what it is set to.
#[derive(Drop)]
pub struct Declarator {
    pub name: Name,
    pub initial: Option<RightSide>,
}

pub type Declarators = Items<Declarator>;

/// A declaration of locals of one type.
#[derive(Drop)]
pub struct Local {
    pub type_name: TypeName,
    pub constant: bool,
    pub declarators: Declarators,
}

/// What stands first in the head of a `for`.
#[derive(Drop)]
pub enum Start {
    Local(Local),
    Simple(Simple),
}

/// A statement (ISO/IEC 9899:1999, 6.8). Its place is that of its first token.
#[derive(Drop)]
#[cycle(statements)]
pub enum Statement {
    Empty(Place),
    Block(Place, Block),
    Local(Place, Local),
    Simple(Place, Simple),
    /// The branches in order, the first that of the `if` itself and the others those of each `else if`, and the block of the last `else`.
    If(Place, Branches, Option<Block>),
    While(Place, Expression, Block),
    For(Place, Option<Start>, Option<Expression>, Option<Simple>, Block),
    Return(Place, Option<Expression>),
}

/// A condition with its block, at the place of its `if`.
#[derive(Drop)]
#[cycle(statements)]
pub struct Branch {
    pub place: Place,
    pub condition: Expression,
    pub block: Block,
}

/// Statements in order.
pub type Block = Items<Statement>;

pub type Branches = Items<Branch>;
