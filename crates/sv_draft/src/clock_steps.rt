//! What the lines of the clock's block come to.
ghost use Rattle.std.specs.Prelude.{◌≡◌, length, slice_get};
ghost use Rattle.sv_lines.specs.Step.{next_value, next_value_step, reset_value_step};
ghost use Rattle.sv_draft.specs.SeenDraft.{draft_of};
ghost use Rattle.sv_draft.specs.Reached.{IsReading, reached_of};

use crate::draft::Draft;
use crate::fault::Fault;
use crate::header::fixed;
use crate::wanted::{Reached, Wanted};
use crate::widths::last_of_width;
use std::alloc::Global;
use sv_pieces::{last_literal, written};
use sv_tree::{SvOperand, SvReg};

/// The reset of the next register, or the line behind the resets.
pub fn reset_value_step<'a>(
    draft: &mut Draft,
    done: usize,
    line: &'a [u8],
) -> Result<Reached<'a>, Fault>
    ensures { IsReading
        (reached_of draft.new)
        (reset_value_step (draft_of draft.old) done (slice_get draft.old.regs done) line.now)
        result }
{
    match draft.regs.get(done) {
        Some(reg) => {
            let Some(text) = written(&reg.name, line) else {
                return Err(Fault::CannotStand);
            };
            let Some(number) = last_literal(text) else {
                return Err(Fault::CannotStand);
            };
            if number.width() == reg.width {
                draft.set_reset(done, number);
                Ok(Reached::Onward(Wanted::Resets(done + 1)))
            } else {
                Err(Fault::CannotStand)
            }
        }
        None => {
            fixed(line, b"    end else begin")?;
            Ok(Reached::Onward(Wanted::Nexts))
        }
    }
}

fn next_value(alloc: Global, draft: &Draft, reg: &SvReg, line: &[u8]) -> Option<SvOperand>
    ensures { result ≡ next_value (draft_of draft.now) reg.now line.now }
{
    match written(&reg.name, line) {
        Some(text) => last_of_width(alloc, draft, reg.width, text),
        None => None,
    }
}

/// The next value of the next register, or the line behind these.
pub fn next_value_step<'a>(
    alloc: Global,
    draft: &mut Draft,
    line: &'a [u8],
) -> Result<Reached<'a>, Fault>
    ensures { IsReading
        (reached_of draft.new)
        (next_value_step (draft_of draft.old) (slice_get draft.old.regs (length draft.old.nexts.items)) line.now)
        result }
{
    let read: &Draft = draft;
    match read.wanted_register() {
        Some(reg) => match next_value(alloc, read, reg, line) {
            Some(next) => match draft.add_next(next) {
                Ok(()) => Ok(Reached::Onward(Wanted::Nexts)),
                Err(fault) => Err(fault),
            },
            None => Err(Fault::CannotStand),
        },
        None => {
            fixed(line, b"    end")?;
            Ok(Reached::Onward(Wanted::End))
        }
    }
}
