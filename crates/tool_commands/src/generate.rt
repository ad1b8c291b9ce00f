//! The command `gen`.
ghost use Rattle.std.specs.Prelude.{◌≤◌, List, ℕ};
ghost use Rattle.std.specs.declared.option.Option.{Option};
ghost use Rattle.command_words.specs.Form.{gen_form, most_number};
ghost use Rattle.tool_answers.specs.Answered.{Answered, shelf_seen, sink_seen};
ghost use Rattle.tool_stages.specs.Stages.{start_of};

use anvil_io::Sink;
use generated_runs::{put_summary, summary_of};
use std::alloc::Global;
use tool_answers::{Status, complain_refusal};

/// Puts the summary of the generated file of a number, or the line that stands beside a refusal of that file. It loads nothing.
pub fn summarise<O: Sink, E: Sink>(alloc: Global, count: u32, out: &mut O, err: &mut E) -> Status
    requires some { 1 ≤ count }
    requires few { count ≤ most_number }
    ensures { (told : List ℕ → Option (List ℕ)) (faults taken : ℕ)
        → Answered (start_of (gen_form count)) result (shelf_seen told faults faults taken taken)
        (sink_seen (O.held out.old) (O.held out.new) (O.faults out.old) (O.faults out.new))
        (sink_seen (E.held err.old) (E.held err.new) (E.faults err.old) (E.faults err.new)) }
{
    let summary = match summary_of(alloc, count) {
        Ok(summary) => summary,
        Err(refusal) => return complain_refusal(err, refusal),
    };
    match put_summary(summary, out) {
        Ok(()) => Status::Done,
        Err(_) => Status::WriteFault,
    }
}
