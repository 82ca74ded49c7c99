// The value of an expression.
ghost use Rattle.std.specs.Prelude.{◌≡◌, length};
ghost use Rattle.chk_base.specs.Operators.{unary_value, binary_value};
ghost use Rattle.chk_base.specs.Term.{term_of};
ghost use Rattle.chk_base.specs.WordValue.{value, word_at, IsWithin};

use crate::cells::Cells;
use crate::expr::{BinOp, Expr, UnOp};
use crate::word::{Width, Word};

fn unary(op: UnOp, a: u32) -> u32
    ensures { result ≡ unary_value op a }
{
    match op {
        UnOp::Not => (a == 0) as u32,
        UnOp::Neg => a.wrapping_neg(),
        UnOp::Inv => !a,
        UnOp::Low8 => a & 0xff,
        UnOp::Low16 => a & 0xffff,
        UnOp::Sign8 => {
            let low = a & 0xff;
            if low < 0x80 { low } else { low + 0xffff_ff00 }
        }
        UnOp::Sign16 => {
            let low = a & 0xffff;
            if low < 0x8000 { low } else { low + 0xffff_0000 }
        }
        UnOp::Bool => (a != 0) as u32,
    }
}

fn binary(op: BinOp, a: u32, b: u32) -> u32
    ensures { result ≡ binary_value op a b }
{
    let (x, y) = (a.cast_signed(), b.cast_signed());
    match op {
        BinOp::Add => a.wrapping_add(b),
        BinOp::Sub => a.wrapping_sub(b),
        BinOp::Mul => a.wrapping_mul(b),
        BinOp::DivU => if b == 0 { 0 } else { a / b },
        BinOp::DivS => if b == 0 {
            0
        } else {
            x.wrapping_div(y).cast_unsigned()
        },
        BinOp::RemU => if b == 0 { 0 } else { a % b },
        BinOp::RemS => if b == 0 {
            0
        } else {
            x.wrapping_rem(y).cast_unsigned()
        },
        BinOp::And => a & b,
        BinOp::Or => a | b,
        BinOp::Xor => a ^ b,
        BinOp::Shl => if b < 32 { a << b } else { 0 },
        BinOp::ShrU => if b < 32 { a >> b } else { 0 },
        BinOp::ShrS => if b < 32 { (x >> b).cast_unsigned() } else { 0 },
        BinOp::Eq => (a == b) as u32,
        BinOp::LtU => (a < b) as u32,
        BinOp::LtS => (x < y) as u32,
        BinOp::LeU => (a <= b) as u32,
        BinOp::LeS => (x <= y) as u32,
        BinOp::AddOver => x.checked_add(y).is_none() as u32,
        BinOp::SubOver => x.checked_sub(y).is_none() as u32,
        BinOp::MulOver => x.checked_mul(y).is_none() as u32,
    }
}

fn bits_of(expr: &Expr, cells: &Cells) -> u32
    requires { IsWithin (length cells.now) (term_of expr.now) }
    ensures { result ≡ value (term_of expr.now) (word_at cells.now) }
{
    match expr {
        Expr::Const(n) => *n,
        Expr::Cell { at, signed } => cells.get(*at).extended(*signed),
        Expr::Pick {
            base,
            len,
            signed,
            index,
        } => {
            let at = bits_of(index, cells);
            if at < *len as u32 {
                cells.word(*base as usize + at as usize).extended(*signed)
            } else {
                0
            }
        }
        Expr::Un(op, a) => unary(*op, bits_of(a, cells)),
        Expr::Bin(op, a, b) => {
            let left = bits_of(a, cells);
            binary(*op, left, bits_of(b, cells))
        }
        Expr::Choose(c, a, b) => {
            if bits_of(c, cells) != 0 {
                bits_of(a, cells)
            } else {
                bits_of(b, cells)
            }
        }
    }
}

/// The value of an expression, as a word of 32 bits. It takes no memory.
pub fn eval(expr: &Expr, cells: &Cells) -> Word
    requires { IsWithin (length cells.now) (term_of expr.now) }
    ensures { result ≡ record { width = Width.W32; bits = value (term_of expr.now) (word_at cells.now) } }
{
    Word {
        width: Width::W32,
        bits: bits_of(expr, cells),
    }
}
