//! What an operator is written as.
ghost use Rattle.std.specs.Prelude.{◌≡◌};
ghost use Rattle.anvil_io.specs.Causes.{Puts};
ghost use Rattle.sv_tree.specs.Text.{after_text, before_text, op_text, operator_text};

use crate::pieces::{Piece, put_pieces};
use anvil_io::{Sink, SinkFault};
use sv_tree::{BinOp, SvModule, SvOp};

// An operator with its operands.
pub fn put_op<W: Sink>(module: &SvModule, op: SvOp, out: &mut W) -> Result<(), SinkFault>
    ensures { Puts (W.held out.old) (W.held out.new) (W.faults out.old) (W.faults out.new) (op_text «module».now op) result }
{
    match op {
        SvOp::Not(x) => put_pieces(module, &[Piece::Text(b"~"), Piece::Operand(x)], out),
        SvOp::Bin(op, x, y) => put_pieces(
            module,
            &[
                Piece::Text(before(op)),
                Piece::Operand(x),
                Piece::Text(between(op)),
                Piece::Operand(y),
                Piece::Text(after(op)),
            ],
            out,
        ),
        SvOp::Slice { of, high, low } => put_pieces(
            module,
            &[
                Piece::Ref(of),
                Piece::Text(b"["),
                Piece::Number(u64::from(high)),
                Piece::Text(b":"),
                Piece::Number(u64::from(low)),
                Piece::Text(b"]"),
            ],
            out,
        ),
        SvOp::Choose(condition, x, y) => put_pieces(
            module,
            &[
                Piece::Operand(condition),
                Piece::Text(b" ? "),
                Piece::Operand(x),
                Piece::Text(b" : "),
                Piece::Operand(y),
            ],
            out,
        ),
    }
}

// What stands between two operands.
fn between(op: BinOp) -> &'static [u8]
    ensures { result.now ≡ operator_text op }
{
    match op {
        BinOp::Add => b" + ",
        BinOp::Sub => b" - ",
        BinOp::Mul => b" * ",
        BinOp::And => b" & ",
        BinOp::Or => b" | ",
        BinOp::Xor => b" ^ ",
        BinOp::Eq => b" == ",
        BinOp::Ne => b" != ",
        BinOp::Lt => b" < ",
        BinOp::Le => b" <= ",
        BinOp::Gt => b" > ",
        BinOp::Ge => b" >= ",
        BinOp::Shl => b" << ",
        BinOp::Shr => b" >> ",
        BinOp::Cat => b", ",
    }
}

// What stands before two operands: a brace where they are put together.
fn before(op: BinOp) -> &'static [u8]
    ensures { result.now ≡ before_text op }
{
    match op {
        BinOp::Cat => b"{",
        _ => b"",
    }
}

// What stands after two operands.
fn after(op: BinOp) -> &'static [u8]
    ensures { result.now ≡ after_text op }
{
    match op {
        BinOp::Cat => b"}",
        _ => b"",
    }
}
