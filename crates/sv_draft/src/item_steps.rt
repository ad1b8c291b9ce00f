//! What the lines of registers, nets and outputs come to.
ghost use Rattle.std.specs.Prelude.{Some};
ghost use Rattle.sv_lines.specs.State.{item_wanted, last_wanted, with_out};
ghost use Rattle.sv_lines.specs.Step.{assign_step, clock_or_end, draft_step, net_by, onward};
ghost use Rattle.sv_draft.specs.SeenDraft.{draft_of};
ghost use Rattle.sv_draft.specs.Reached.{IsReading, reached_of};

use crate::draft::Draft;
use crate::fault::Fault;
use crate::header::fixed;
use crate::operators::op_of;
use crate::room::has_room;
use crate::wanted::{Reached, Wanted};
use crate::widths::widths_fit;
use std::alloc::Global;
use sv_pieces::{after, number_at};
use sv_tree::{SvOp, SvOut};

fn net_by<'a>(draft: &mut Draft, width: u8, number: u64, op: SvOp) -> Result<Reached<'a>, Fault>
    ensures { IsReading (reached_of draft.new) (net_by (draft_of draft.old) width number op) result }
{
    let count = draft.nets.nets().len();
    if number == count as u64 && has_room(count) && widths_fit(draft, width, &op) {
        match draft.add_net(width, op) {
            Ok(()) => Ok(Reached::Onward(Wanted::Item)),
            Err(fault) => Err(fault),
        }
    } else {
        Err(Fault::CannotStand)
    }
}

/// The `assign` line of a net.
pub fn assign_step<'a>(
    alloc: Global,
    draft: &mut Draft,
    width: u8,
    line: &'a [u8],
) -> Result<Reached<'a>, Fault>
    ensures { IsReading (reached_of draft.new) (assign_step (draft_of draft.old) width line.now) result }
{
    let Some(rest) = after(line, b"  assign n__") else {
        return Err(Fault::CannotStand);
    };
    let Some((number, rest)) = number_at(rest) else {
        return Err(Fault::CannotStand);
    };
    let Some(text) = after(rest, b" = ") else {
        return Err(Fault::CannotStand);
    };
    match op_of(alloc, draft, text) {
        Some(op) => net_by(draft, width, number, op),
        None => Err(Fault::CannotStand),
    }
}

/// The module with the output.
pub fn with_out<'a>(draft: &mut Draft, out: SvOut) -> Result<Reached<'a>, Fault>
    ensures { IsReading (reached_of draft.new) (Some (onward (with_out (draft_of draft.old) out) item_wanted)) result }
{
    match draft.add_out(out) {
        Ok(()) => Ok(Reached::Onward(Wanted::Item)),
        Err(fault) => Err(fault),
    }
}

/// The line behind the outputs: the clock's block or the end.
pub fn clock_or_end<'a>(
    draft: &Draft,
    has_no_registers: bool,
    line: &'a [u8],
) -> Result<Reached<'a>, Fault>
    ensures { IsReading (reached_of draft.now) (clock_or_end (draft_of draft.now) has_no_registers line.now) result }
{
    if has_no_registers {
        last(draft, line)
    } else {
        fixed(line, b"  always_ff @(posedge clk_i) begin")?;
        Ok(Reached::Onward(Wanted::Test))
    }
}

/// The last line of a module.
pub fn last<'a>(draft: &Draft, line: &'a [u8]) -> Result<Reached<'a>, Fault>
    ensures { IsReading (reached_of draft.now) (draft_step (draft_of draft.now) last_wanted line.now) result }
{
    if line == b"endmodule".as_slice() {
        Ok(Reached::Finished)
    } else {
        Err(Fault::CannotStand)
    }
}
