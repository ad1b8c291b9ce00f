//! Signs of operators, and slices.
ghost use Rattle.std.specs.Prelude.{◌≡◌, MatchOption, None, Some};
ghost use Rattle.sv_lines.specs.Operands.{operator_at, reference_of, sign_of, slice_by, sliced};

use crate::pieces::{Run, after, number_at, run_at};
use core_term::BinOp;
use sv_tree::{SvOp, SvOperand, SvRef};

fn sign_of(text: &[u8]) -> Option<BinOp>
    ensures { result ≡ sign_of text.now }
{
    match text {
        [b'+'] => Some(BinOp::Add),
        [b'-'] => Some(BinOp::Sub),
        [b'*'] => Some(BinOp::Mul),
        [b'&'] => Some(BinOp::And),
        [b'|'] => Some(BinOp::Or),
        [b'^'] => Some(BinOp::Xor),
        [b'<'] => Some(BinOp::Lt),
        [b'>'] => Some(BinOp::Gt),
        [b'=', b'='] => Some(BinOp::Eq),
        [b'!', b'='] => Some(BinOp::Ne),
        [b'<', b'='] => Some(BinOp::Le),
        [b'>', b'='] => Some(BinOp::Ge),
        [b'<', b'<'] => Some(BinOp::Shl),
        [b'>', b'>'] => Some(BinOp::Shr),
        _ => None,
    }
}

/// An operator between two blanks, and what stands after it.
pub fn operator_at(text: &[u8]) -> Option<(BinOp, &[u8])>
    ensures { MatchOption result
        (operator_at text.now ≡ None)
        (λ found. operator_at text.now ≡ Some (found.0, found.1.now)) }
{
    let Some(rest) = after(text, b" ") else {
        return None;
    };
    let (sign, rest) = run_at(Run::Unbroken, rest);
    let Some(op) = sign_of(sign) else {
        return None;
    };
    let Some(rest) = after(rest, b" ") else {
        return None;
    };
    Some((op, rest))
}

fn slice_by(of: SvRef, high: u64, low: u64) -> Option<SvOp>
    ensures { result ≡ slice_by of high low }
{
    if high < 64 && low <= high {
        Some(SvOp::Slice {
            of,
            high: high as u8,
            low: low as u8,
        })
    } else {
        None
    }
}

fn reference_of(operand: SvOperand) -> Option<SvRef>
    ensures { result ≡ reference_of operand }
{
    match operand {
        SvOperand::Ref(reference) => Some(reference),
        SvOperand::Lit(_) => None,
    }
}

/// The slice of an operand behind its `[`, and the end of the line.
pub fn sliced(operand: SvOperand, rest: &[u8]) -> Option<SvOp>
    ensures { result ≡ sliced operand rest.now }
{
    let Some(of) = reference_of(operand) else {
        return None;
    };
    let Some((high, rest)) = number_at(rest) else {
        return None;
    };
    let Some(rest) = after(rest, b":") else {
        return None;
    };
    let Some((low, rest)) = number_at(rest) else {
        return None;
    };
    let Some(op) = slice_by(of, high, low) else {
        return None;
    };
    if rest == b"];".as_slice() {
        Some(op)
    } else {
        None
    }
}
