// Expressions and statements over cells, with each conversion written out.
use c_unit::expression::{BinaryOperator, UnaryOperator};
use chk_base::place::Place;
use step_ir::event::Service;
use typed_unit::typed::CType;

/// An expression. A local has its number in its body, and a global its first cell. The flag of an operator says whether its operands are
/// signed.
#[derive(Drop)]
pub enum ExpressionTree {
    Number(u32),
    Local {
        at: u16,
        ctype: CType,
    },
    Global {
        cell: u16,
        ctype: CType,
    },
    Element {
        cell: u16,
        len: u8,
        ctype: CType,
        index: Box<ExpressionTree>,
    },
    Binary(BinaryOperator, bool, Box<ExpressionTree>, Box<ExpressionTree>),
    Unary(UnaryOperator, bool, Box<ExpressionTree>),
    Conjunction(Box<ExpressionTree>, Box<ExpressionTree>),
    Disjunction(Box<ExpressionTree>, Box<ExpressionTree>),
    Conditional(Box<ExpressionTree>, Box<ExpressionTree>, Box<ExpressionTree>),
    Converted(CType, Box<ExpressionTree>),
}

/// The local that takes a result, by its number, and its type.
#[derive(Clone, Copy)]
pub struct Takes {
    pub at: u16,
    pub ctype: CType,
}

/// A statement; a `while` is a loop without a third part, and a `for` is one after its first part.
#[derive(Drop)]
pub enum StatementTree {
    Set {
        place: Place,
        at: u16,
        ctype: CType,
        value: ExpressionTree,
    },
    Write {
        place: Place,
        cell: u16,
        ctype: CType,
        value: ExpressionTree,
    },
    WriteAt {
        place: Place,
        cell: u16,
        len: u8,
        ctype: CType,
        index: ExpressionTree,
        value: ExpressionTree,
    },
    If {
        place: Place,
        condition: ExpressionTree,
        on: Vec<StatementTree>,
        off: Vec<StatementTree>,
    },
    Loop {
        place: Place,
        condition: ExpressionTree,
        third: Vec<StatementTree>,
        body: Vec<StatementTree>,
    },
    Assert {
        place: Place,
        condition: ExpressionTree,
    },
    Input {
        place: Place,
        at: u16,
        ctype: CType,
    },
    Call {
        place: Place,
        function: u16,
        arguments: Vec<ExpressionTree>,
        into: Option<Takes>,
    },
    Return {
        place: Place,
        value: Option<ExpressionTree>,
    },
    Serve {
        place: Place,
        service: Service,
    },
    Block(Vec<StatementTree>),
}

/// A function, or the body of an entity. The parameters are the first locals, and `gives` says whether there is a result; `close` is the
/// place of the closing brace.
#[derive(Drop)]
pub struct FunctionTree {
    pub params: Vec<CType>,
    pub locals: u16,
    pub gives: bool,
    pub body: Vec<StatementTree>,
    pub close: Place,
}
