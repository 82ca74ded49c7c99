// Translation units as they are written.
use crate::expression::{Number, TypeName};
use crate::statement::Block;
use chk_base::place::Place;
use chk_base::text::Name;
use sqlite_items::Items;

/// Whose body it is: a task's or an interrupt routine's.
#[derive(Clone, Copy, PartialEq, Eq, Debug)]
pub enum EntityKind {
    Task,
    Isr,
}

/// What a file-level variable or an element begins with. Its place is that of its first token, so of the `-` of a negative number.
#[derive(Clone, Copy, PartialEq, Eq, Debug)]
pub enum Constant {
    Number {
        place: Place,
        negative: bool,
        number: Number,
    },
    Truth(Place, bool),
}

pub type Constants = Items<Constant>;

/// A file-level variable, and what it begins with.
#[derive(Drop)]
pub enum Variable {
    Scalar(Name, Option<Constant>),
    /// An array with its length and the constants of its first elements; none where there is no list of them.
    Array(Name, Number, Constants),
}

/// The declaration of a file-level variable (ISO/IEC 9899:1999, 6.7).
#[derive(Drop)]
pub struct Declaration {
    pub type_name: TypeName,
    pub constant: bool,
    pub variable: Variable,
}

pub type Declarations = Items<Declaration>;

#[derive(Drop)]
pub struct Parameter {
    pub type_name: TypeName,
    pub constant: bool,
    pub name: Name,
}

pub type Parameters = Items<Parameter>;

/// A function's name, parameters, and the type of its result; none for `void`.
#[derive(Drop)]
pub struct Signature {
    pub result: Option<TypeName>,
    pub name: Name,
    pub parameters: Parameters,
}

/// A function with its body (ISO/IEC 9899:1999, 6.9.1) and the place of the closing brace.
#[derive(Drop)]
pub struct Function {
    pub signature: Signature,
    pub body: Block,
    pub close: Place,
}

/// What stands at file level.
#[derive(Drop)]
pub enum External {
    DeclareTask(Name),
    DeclareResource(Name),
    /// The body of a task or an interrupt routine, and the place of its closing brace.
    Entity {
        kind: EntityKind,
        name: Name,
        body: Block,
        close: Place,
    },
    Variables(Declarations),
    Function(Function),
    Prototype(Signature),
}

pub type Externals = Items<External>;

/// What a C text declares and defines, in order, and the place of the text's end.
#[derive(Drop)]
pub struct Unit {
    pub externals: Externals,
    pub end: Place,
}
