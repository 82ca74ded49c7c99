// Typed units: what a C text declares and does, with each name replaced by the number of what it means, the type of each expression, and
// each conversion written out.
ghost use Rattle.std.specs.Prelude.{◌≡◌};
ghost use Rattle.typed_unit.specs.Plain.{type_of};
ghost use Rattle.typed_unit.specs.Views.{expr_of};
ghost use Rattle.typed_unit.specs.Conversions.{place_of};

use application::app::Entity;
use c_unit::expression::{BinaryOperator, UnaryOperator};
use c_unit::unit::EntityKind;
use chk_base::place::Place;
use chk_base::sets::Values;
use chk_base::text::Name;
use chk_base::word::Width;
use sqlite_items::{Boxed, Items};
use step_ir::event::Service;

/// A type of values: their width, and whether they are read as signed numbers. `bool` has the width 1 and is unsigned
/// (ISO/IEC 9899:1999, 6.2.5).
#[derive(Clone, Copy, PartialEq, Eq, Debug)]
pub struct CType {
    pub width: Width,
    pub signed: bool,
}

/// A file-level variable. `len` is the length of an array, 1 to 64, and none for a scalar. `start` has the bits of the value with which the
/// scalar, or each element in order, begins: below 2 to the width, and 0 where nothing is written (ISO/IEC 9899:1999, 6.7.8).
#[derive(Drop)]
pub struct GlobalVar {
    pub name: Name,
    pub ctype: CType,
    pub len: Option<u8>,
    pub start: Values,
}

/// The file-level variables, numbered from 0 in the order of the text.
pub type Globals = Items<GlobalVar>;

/// A parameter, or a local that a body declares.
#[derive(Drop)]
pub struct Local {
    pub name: Name,
    pub ctype: CType,
}

/// The locals of one function or body, numbered from 0: first the parameters, then the declared ones in the order of the text.
pub type Locals = Items<Local>;

/// An expression (ISO/IEC 9899:1999, 6.5). Each has its place, which is that of the written one, and its type. The operands of an operator
/// have the type in which it is computed: those of `*` `/` `%` `+` `-` `&` `^` `|` and of the comparisons have one type, that of the result
/// but for a comparison; of a shift the left one has the type of the result; of `&&`, `||` and `!`, a condition and an index each is
/// promoted by itself.
#[derive(Drop)]
pub enum TypedExpr {
    Number(Place, CType, u32),
    Truth(Place, CType, bool),
    /// The local with this number.
    Local(Place, CType, usize),
    /// The scalar with this number among the globals.
    Global(Place, CType, usize),
    /// An element of the array with this number among the globals, and of this length.
    Element {
        place: Place,
        ctype: CType,
        global: usize,
        len: u8,
        index: Boxed<TypedExpr>,
    },
    Parenthesis(Place, CType, Boxed<TypedExpr>),
    Unary(Place, CType, UnaryOperator, Boxed<TypedExpr>),
    /// A conversion that is written in the text.
    Cast(Place, CType, Boxed<TypedExpr>),
    Binary(Place, CType, BinaryOperator, Boxed<TypedExpr>, Boxed<TypedExpr>),
    /// The condition, the value where it isn't 0, and the value where it is; both values have the type of the whole.
    Conditional(Place, CType, Boxed<TypedExpr>, Boxed<TypedExpr>, Boxed<TypedExpr>),
    /// A conversion that the language asks for, to another type than the operand's.
    Conversion(Place, CType, Boxed<TypedExpr>),
}

impl TypedExpr {
    /// Its type. It takes no memory.
    pub fn ctype(&self) -> CType
        ensures { result ≡ type_of (expr_of self.now) }
    {
        match self {
            TypedExpr::Number(_, t, _) => *t,
            TypedExpr::Truth(_, t, _) => *t,
            TypedExpr::Local(_, t, _) => *t,
            TypedExpr::Global(_, t, _) => *t,
            TypedExpr::Element { ctype, .. } => *ctype,
            TypedExpr::Parenthesis(_, t, _) => *t,
            TypedExpr::Unary(_, t, _, _) => *t,
            TypedExpr::Cast(_, t, _) => *t,
            TypedExpr::Binary(_, t, _, _, _) => *t,
            TypedExpr::Conditional(_, t, _, _, _) => *t,
            TypedExpr::Conversion(_, t, _) => *t,
        }
    }

    /// Its place. It takes no memory.
    pub fn place(&self) -> Place
        ensures { result ≡ place_of (expr_of self.now) }
    {
        match self {
            TypedExpr::Number(p, _, _) => *p,
            TypedExpr::Truth(p, _, _) => *p,
            TypedExpr::Local(p, _, _) => *p,
            TypedExpr::Global(p, _, _) => *p,
            TypedExpr::Element { place, .. } => *place,
            TypedExpr::Parenthesis(p, _, _) => *p,
            TypedExpr::Unary(p, _, _, _) => *p,
            TypedExpr::Cast(p, _, _) => *p,
            TypedExpr::Binary(p, _, _, _, _) => *p,
            TypedExpr::Conditional(p, _, _, _, _) => *p,
            TypedExpr::Conversion(p, _, _) => *p,
        }
    }
}

pub type TypedExprs = Items<TypedExpr>;

/// The local that takes a value, with its type.
#[derive(Clone, Copy, PartialEq, Eq, Debug)]
pub struct Taker {
    pub local: usize,
    pub ctype: CType,
}

/// A statement that does something, at the place of its first token; that of a declared local is the local's name. A value that is written
/// has the type of what it is written to. `x += e`, `x++` and their kin are assignments of a sum, a difference and so on; an empty statement
/// is none.
#[derive(Drop)]
#[cycle(typed_statements)]
pub enum TypedStatement {
    /// A value to a local.
    Set {
        place: Place,
        local: usize,
        value: TypedExpr,
    },
    /// A value to the scalar with this number among the globals.
    Write {
        place: Place,
        global: usize,
        value: TypedExpr,
    },
    /// A value to an element of the array with this number among the globals, and of this length.
    WriteElement {
        place: Place,
        global: usize,
        len: u8,
        index: TypedExpr,
        value: TypedExpr,
    },
    /// Any value of its type to a local.
    Input {
        place: Place,
        taker: Taker,
    },
    /// A call of the function with this number, whose name stands at `name`. Each argument has the type of its parameter. The result is
    /// converted to the type of the local that takes it, if one does.
    Call {
        place: Place,
        name: Place,
        function: usize,
        arguments: TypedExprs,
        taker: Option<Taker>,
    },
    /// A system service, and the place of its argument, if it has one.
    Service {
        place: Place,
        service: Service,
        argument: Option<Place>,
    },
    Assert {
        place: Place,
        condition: TypedExpr,
    },
    /// The branches in order, the first that of the `if` itself and the others those of each `else if`, and the block of the last `else`.
    If {
        place: Place,
        branches: TypedBranches,
        otherwise: Option<TypedBlock>,
    },
    While {
        place: Place,
        condition: TypedExpr,
        body: TypedBlock,
    },
    /// What is done first, the condition, what is done after the body, and the body.
    For {
        place: Place,
        start: TypedBlock,
        condition: Option<TypedExpr>,
        step: TypedBlock,
        body: TypedBlock,
    },
    /// The end of the body. A value has the type of the function's result.
    Return {
        place: Place,
        value: Option<TypedExpr>,
    },
    Block {
        place: Place,
        body: TypedBlock,
    },
}

/// A condition with its block, at the place of its `if`.
#[derive(Drop)]
#[cycle(typed_statements)]
pub struct TypedBranch {
    pub place: Place,
    pub condition: TypedExpr,
    pub block: TypedBlock,
}

pub type TypedBranches = Items<TypedBranch>;

/// Statements in order.
pub type TypedBlock = Items<TypedStatement>;

/// A function; `params` is the number of its parameters, at most 8, which are the first of its locals, and `close` the place of its closing
/// brace.
#[derive(Drop)]
pub struct TypedFunction {
    pub name: Name,
    pub result: Option<CType>,
    pub params: u8,
    pub locals: Locals,
    pub body: TypedBlock,
    pub close: Place,
}

/// The functions, numbered from 0 in the order of the text.
pub type TypedFunctions = Items<TypedFunction>;

/// The body of a task or an interrupt routine; `entity` is the object of its kind in the OIL text that has its name, and none where there is
/// no such object. `close` is the place of its closing brace.
#[derive(Drop)]
pub struct TypedEntity {
    pub kind: EntityKind,
    pub name: Name,
    pub entity: Option<Entity>,
    pub locals: Locals,
    pub body: TypedBlock,
    pub close: Place,
}

/// The bodies of tasks and routines, in the order of the text.
pub type TypedEntities = Items<TypedEntity>;

/// A whole C text, and the place of its end.
#[derive(Drop)]
pub struct TypedUnit {
    pub globals: Globals,
    pub functions: TypedFunctions,
    pub entities: TypedEntities,
    pub end: Place,
}
