// Expressions over cells; all values have 32 bits.

/// An operator with one operand: logical not, minus, complement, the low 8 or 16 bits with zeros or copies of their top bit above, and
/// 1 for each value but 0.
#[derive(Clone, Copy, PartialEq, Eq, Debug)]
pub enum UnOp {
    Not,
    Neg,
    Inv,
    Low8,
    Low16,
    Sign8,
    Sign16,
    Bool,
}

/// An operator with two operands; `U` reads them unsigned and `S` signed. `AddOver`, `SubOver` and `MulOver` give 1 exactly where the signed
/// result leaves the range of 32 bits. Division by 0 and a shift by 32 or more give 0; signed division of the least number by -1 gives
/// the least number, and the remainder 0.
#[derive(Clone, Copy, PartialEq, Eq, Debug)]
pub enum BinOp {
    Add,
    Sub,
    Mul,
    DivU,
    DivS,
    RemU,
    RemS,
    And,
    Or,
    Xor,
    Shl,
    ShrU,
    ShrS,
    Eq,
    LtU,
    LtS,
    LeU,
    LeS,
    AddOver,
    SubOver,
    MulOver,
}

/// An expression. `Cell` is the reading of a cell, signed or not; `Pick` that of the cell `base + index`, and 0 where the index isn't below
/// `len`; `Choose` is its second part where the first isn't 0, and else its third.
#[derive(Drop)]
pub enum Expr {
    Const(u32),
    Cell {
        at: u16,
        signed: bool,
    },
    Pick {
        base: u16,
        len: u8,
        signed: bool,
        index: Box<Expr>,
    },
    Un(UnOp, Box<Expr>),
    Bin(BinOp, Box<Expr>, Box<Expr>),
    Choose(Box<Expr>, Box<Expr>, Box<Expr>),
}
