//! What a line comes to in a module.
ghost use Rattle.sv_lines.specs.Good.{IsAt};
ghost use Rattle.sv_lines.specs.Step.{draft_step, item_step};
ghost use Rattle.sv_draft.specs.SeenDraft.{draft_of};
ghost use Rattle.sv_draft.specs.Reached.{IsReading, reached_of, wanted_of};

use crate::clock_steps::{next_value_step, reset_value_step};
use crate::declarations::declared_step;
use crate::draft::Draft;
use crate::fault::Fault;
use crate::header::{ack_step, fixed, port_step, reset_step, valid_step};
use crate::item_steps::{assign_step, last};
use crate::output_steps::{output_step, second_step};
use crate::wanted::{Reached, Wanted};
use std::alloc::Global;
use sv_pieces::declaration;

// A register, a net, an output, or what follows these.
fn item_step<'a>(alloc: Global, draft: &mut Draft, line: &'a [u8]) -> Result<Reached<'a>, Fault>
    ensures { IsReading (reached_of draft.new) (item_step (draft_of draft.old) line.now) result }
{
    match declaration(alloc, line) {
        Some(declared) => declared_step(draft, declared),
        None => output_step(alloc, draft, line),
    }
}

/// What a line comes to in a module.
pub fn draft_step<'a>(
    alloc: Global,
    draft: &mut Draft,
    wanted: &Wanted<'a>,
    line: &'a [u8],
) -> Result<Reached<'a>, Fault>
    requires { IsAt (draft_of draft.old) (wanted_of wanted.now) }
    ensures { IsReading
        (reached_of draft.new)
        (draft_step (draft_of draft.old) (wanted_of wanted.now) line.now)
        result }
{
    match wanted {
        Wanted::Clock => {
            fixed(line, b"  input logic clk_i,")?;
            Ok(Reached::Onward(Wanted::Reset))
        }
        Wanted::Reset => reset_step(draft, line),
        Wanted::Port => port_step(alloc, draft, line),
        Wanted::Closing => {
            fixed(line, b");")?;
            Ok(Reached::Onward(Wanted::Item))
        }
        Wanted::Valid(port) => valid_step(draft, port, line),
        Wanted::Ack(port) => ack_step(alloc, draft, port, line),
        Wanted::Item => item_step(alloc, draft, line),
        Wanted::Assign(width) => assign_step(alloc, draft, *width, line),
        Wanted::Second(value) => second_step(alloc, draft, *value, line),
        Wanted::Test => {
            fixed(line, b"    if (!rst_ni) begin")?;
            Ok(Reached::Onward(Wanted::Resets(0)))
        }
        Wanted::Resets(done) => reset_value_step(draft, *done, line),
        Wanted::Nexts => next_value_step(alloc, draft, line),
        Wanted::End => {
            fixed(line, b"  end")?;
            Ok(Reached::Onward(Wanted::Last))
        }
        Wanted::Last => last(draft, line),
    }
}
