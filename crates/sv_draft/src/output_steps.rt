//! What the lines of outputs come to.
ghost use Rattle.std.specs.Prelude.{◌≡◌, length, slice_get};
ghost use Rattle.sv_lines.specs.Step.{given, is_empty, output_step, second_step};
ghost use Rattle.sv_draft.specs.SeenDraft.{draft_of};
ghost use Rattle.sv_draft.specs.Reached.{IsReading, reached_of};

use crate::draft::Draft;
use crate::fault::Fault;
use crate::item_steps::{clock_or_end, with_out};
use crate::wanted::{Reached, Wanted};
use crate::widths::last_of_width;
use std::alloc::Global;
use sv_lines::Wire;
use sv_pieces::assigned;
use sv_tree::{SvOperand, SvOut, SvPort};

/// Whether there are no items.
pub fn is_empty<T: Drop>(items: &[T]) -> bool
    ensures { result ≡ is_empty items.now }
{
    match items {
        [] => true,
        [_, ..] => false,
    }
}

// The operand of this width that a wire of the port is given.
fn given(
    alloc: Global,
    draft: &Draft,
    port: &SvPort,
    wire: Wire,
    width: u8,
    line: &[u8],
) -> Option<SvOperand>
    ensures { result ≡ given (draft_of draft.now) port.now wire width line.now }
{
    match assigned(port, wire, line) {
        Some(rest) => last_of_width(alloc, draft, width, rest),
        None => None,
    }
}

/// The first line of an output, or what follows the outputs.
pub fn output_step<'a>(
    alloc: Global,
    draft: &mut Draft,
    line: &'a [u8],
) -> Result<Reached<'a>, Fault>
    ensures { IsReading
        (reached_of draft.new)
        (output_step (draft_of draft.old) (slice_get draft.old.ports (length draft.old.outs.items)) line.now)
        result }
{
    let read: &Draft = draft;
    match read.wanted_port() {
        Some(port) => if port.received {
            match given(alloc, read, port, Wire::Ack, 1, line) {
                Some(ack) => with_out(draft, SvOut::Received { ack }),
                None => Err(Fault::CannotStand),
            }
        } else {
            match given(alloc, read, port, Wire::Data, port.width, line) {
                Some(value) => Ok(Reached::Onward(Wanted::Second(value))),
                None => Err(Fault::CannotStand),
            }
        },
        None => clock_or_end(read, is_empty(read.regs.regs()), line),
    }
}

/// The second line of an output that is sent.
pub fn second_step<'a>(
    alloc: Global,
    draft: &mut Draft,
    value: SvOperand,
    line: &'a [u8],
) -> Result<Reached<'a>, Fault>
    ensures { IsReading
        (reached_of draft.new)
        (second_step (draft_of draft.old) value (slice_get draft.old.ports (length draft.old.outs.items)) line.now)
        result }
{
    let read: &Draft = draft;
    match read.wanted_port() {
        Some(port) => match given(alloc, read, port, Wire::Valid, 1, line) {
            Some(valid) => with_out(draft, SvOut::Sent { value, valid }),
            None => Err(Fault::CannotStand),
        },
        None => Err(Fault::CannotStand),
    }
}
