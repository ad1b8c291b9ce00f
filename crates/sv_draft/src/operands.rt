//! Operands of a module that is read so far: what is named must stand in it.
ghost use Rattle.std.specs.Prelude.{◌≡◌, MatchOption, None, Some};
ghost use Rattle.sv_tree.specs.declared.tree.SvRegName.{SvRegName};
ghost use Rattle.sv_lines.specs.Pieces.{cut};
ghost use Rattle.sv_lines.specs.Operands.{label_ref, last_operand, named_by, operand_at, operand_of, port_wire, register_ref, wire_ref};
ghost use Rattle.sv_pieces.specs.Seen.{label_of};
ghost use Rattle.sv_draft.specs.Keys.{register_key};
ghost use Rattle.sv_draft.specs.SeenDraft.{draft_of};

use crate::draft::Draft;
use crate::key::RegisterKey;
use std::alloc::Global;
use sv_lines::Wire;
use sv_pieces::{Label, Run, cut, label_of, literal_of, run_at, wire_of};
use sv_tree::{SvOperand, SvPort, SvRef};

fn wire_ref(port: &SvPort, index: u32, wire: Wire) -> Option<SvRef>
    ensures { result ≡ wire_ref (Some port.now) index wire }
{
    match wire {
        Wire::Data => if port.received {
            Some(SvRef::Data(index))
        } else {
            None
        },
        Wire::Valid => if port.received {
            Some(SvRef::Valid(index))
        } else {
            None
        },
        Wire::Ack => if port.received {
            None
        } else {
            Some(SvRef::Ack(index))
        },
    }
}

fn port_wire(
    alloc: Global,
    draft: &Draft,
    endpoint: &[u8],
    message: &[u8],
    word: &[u8],
) -> Option<SvRef>
    ensures { result ≡ port_wire (draft_of draft.now) endpoint.now message.now word.now }
{
    let Some(wire) = wire_of(word) else {
        return None;
    };
    match draft.ports.index_of(alloc, endpoint, message) {
        Some(index) => wire_ref(&draft.ports.ports()[index as usize], index, wire),
        None => None,
    }
}

fn register_ref(draft: &Draft, key: &RegisterKey) -> Option<SvRef>
    ensures { (name : SvRegName) → key.now ≡ register_key name → result ≡ register_ref (draft_of draft.now) name }
{
    match draft.regs.index_of(key) {
        Some(index) => Some(SvRef::Reg(index)),
        None => None,
    }
}

fn label_ref(draft: &Draft, label: Label) -> Option<SvRef>
    ensures { result ≡ label_ref (draft_of draft.now) (label_of label) }
{
    match label {
        Label::Source(name) => register_ref(draft, &RegisterKey::Source(name)),
        Label::State(number) => register_ref(draft, &RegisterKey::State(number)),
        Label::Net(number) => if number < draft.nets.nets().len() as u64 {
            Some(SvRef::Net(number as u32))
        } else {
            None
        },
    }
}

fn named_ref(
    alloc: Global,
    draft: &Draft,
    text: &[u8],
    endpoint: &[u8],
    rest: &[u8],
) -> Option<SvRef>
    ensures { result ≡ named_by (draft_of draft.now) text.now endpoint.now (cut rest.now) }
{
    match cut(rest) {
        Some((message, word)) => port_wire(alloc, draft, endpoint, message, word),
        None => match label_of(alloc, text) {
            Some(label) => label_ref(draft, label),
            None => None,
        },
    }
}

fn operand_of(alloc: Global, draft: &Draft, text: &[u8]) -> Option<SvOperand>
    ensures { result ≡ operand_of (draft_of draft.now) text.now }
{
    match cut(text) {
        Some((front, rest)) => match named_ref(alloc, draft, text, front, rest) {
            Some(reference) => Some(SvOperand::Ref(reference)),
            None => None,
        },
        None => match literal_of(text) {
            Some(number) => Some(SvOperand::Lit(number)),
            None => None,
        },
    }
}

/// An operand, and what stands after it.
pub fn operand_at<'a>(alloc: Global, draft: &Draft, text: &'a [u8]) -> Option<(SvOperand, &'a [u8])>
    ensures { MatchOption result
        (operand_at (draft_of draft.now) text.now ≡ None)
        (λ found. operand_at (draft_of draft.now) text.now ≡ Some (found.0, found.1.now)) }
{
    let (front, rest) = run_at(Run::Operand, text);
    match operand_of(alloc, draft, front) {
        Some(operand) => Some((operand, rest)),
        None => None,
    }
}

/// A whole operand, and the end of the line.
pub fn last_operand(alloc: Global, draft: &Draft, text: &[u8]) -> Option<SvOperand>
    ensures { result ≡ last_operand (draft_of draft.now) text.now }
{
    let Some((operand, rest)) = operand_at(alloc, draft, text) else {
        return None;
    };
    if rest == b";".as_slice() {
        Some(operand)
    } else {
        None
    }
}
