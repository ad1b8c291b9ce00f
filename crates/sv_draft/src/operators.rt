//! Operators over operands of a module that is read so far.
ghost use Rattle.std.specs.Prelude.{◌≡◌, None};
ghost use Rattle.sv_lines.specs.Operands.{chosen, inverted, joined, op_by, op_of, op_with_first, operated};
ghost use Rattle.sv_draft.specs.SeenDraft.{draft_of};

use crate::draft::Draft;
use crate::operands::{last_operand, operand_at};
use core_term::BinOp;
use std::alloc::Global;
use sv_pieces::{after, operator_at, sliced};
use sv_tree::{SvOp, SvOperand};

fn inverted(alloc: Global, draft: &Draft, rest: &[u8]) -> Option<SvOp>
    ensures { result ≡ inverted (draft_of draft.now) rest.now }
{
    match last_operand(alloc, draft, rest) {
        Some(operand) => Some(SvOp::Not(operand)),
        None => None,
    }
}

fn joined(alloc: Global, draft: &Draft, rest: &[u8]) -> Option<SvOp>
    ensures { result ≡ joined (draft_of draft.now) rest.now }
{
    let Some((first, rest)) = operand_at(alloc, draft, rest) else {
        return None;
    };
    let Some(rest) = after(rest, b", ") else {
        return None;
    };
    let Some((second, rest)) = operand_at(alloc, draft, rest) else {
        return None;
    };
    if rest == b"};".as_slice() {
        Some(SvOp::Bin(BinOp::Cat, first, second))
    } else {
        None
    }
}

fn chosen(alloc: Global, draft: &Draft, condition: SvOperand, rest: &[u8]) -> Option<SvOp>
    ensures { result ≡ chosen (draft_of draft.now) condition rest.now }
{
    let Some((first, rest)) = operand_at(alloc, draft, rest) else {
        return None;
    };
    let Some(rest) = after(rest, b" : ") else {
        return None;
    };
    match last_operand(alloc, draft, rest) {
        Some(second) => Some(SvOp::Choose(condition, first, second)),
        None => None,
    }
}

fn operated(alloc: Global, draft: &Draft, first: SvOperand, rest: &[u8]) -> Option<SvOp>
    ensures { result ≡ operated (draft_of draft.now) first rest.now }
{
    let Some((op, rest)) = operator_at(rest) else {
        return None;
    };
    match last_operand(alloc, draft, rest) {
        Some(second) => Some(SvOp::Bin(op, first, second)),
        None => None,
    }
}

fn op_with_first(alloc: Global, draft: &Draft, first: SvOperand, rest: &[u8]) -> Option<SvOp>
    ensures { result ≡ op_with_first (draft_of draft.now) first rest.now }
{
    match after(rest, b"[") {
        Some(inner) => sliced(first, inner),
        None => match after(rest, b" ? ") {
            Some(inner) => chosen(alloc, draft, first, inner),
            None => operated(alloc, draft, first, rest),
        },
    }
}

fn op_begun(alloc: Global, draft: &Draft, text: &[u8]) -> Option<SvOp>
    ensures { result ≡ op_by (draft_of draft.now) text.now None None }
{
    match operand_at(alloc, draft, text) {
        Some((first, rest)) => op_with_first(alloc, draft, first, rest),
        None => None,
    }
}

/// An operator over operands, and the end of the line.
pub fn op_of(alloc: Global, draft: &Draft, text: &[u8]) -> Option<SvOp>
    ensures { result ≡ op_of (draft_of draft.now) text.now }
{
    match after(text, b"~") {
        Some(rest) => inverted(alloc, draft, rest),
        None => match after(text, b"{") {
            Some(rest) => joined(alloc, draft, rest),
            None => op_begun(alloc, draft, text),
        },
    }
}
