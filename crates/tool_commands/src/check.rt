//! The command `check`.
ghost use Rattle.std.specs.Prelude.{◌≤◌, [], ◌∷◌, List, ℕ, length};
ghost use Rattle.std.specs.declared.option.Option.{Option};
ghost use Rattle.command_words.specs.Form.{check_form, longest_file};
ghost use Rattle.tool_answers.specs.Answered.{Answered, shelf_seen, sink_seen};
ghost use Rattle.tool_stages.specs.Stages.{IsAcceptedLine, file_stages, start_of};

use crate::limits::LONGEST_FILE;
use anvil_io::{Shelf, Sink, put_all};
use checked_files::accepted_of_bytes;
use std::alloc::Global;
use tool_answers::{Status, complain_load, complain_refusal};

/// Loads a file and puts a line where it keeps the timing rules.
pub fn check_file<S: Shelf, O: Sink, E: Sink>(
    alloc: Global,
    file: &str,
    shelf: &mut S,
    out: &mut O,
    err: &mut E,
) -> Status
    requires { S.may_ask shelf.old file.now }
    ensures { Answered (start_of (check_form file.now)) result
        (shelf_seen (S.told shelf.old) (S.faults shelf.old) (S.faults shelf.new) (S.taken shelf.old)
        (S.taken shelf.new))
        (sink_seen (O.held out.old) (O.held out.new) (O.faults out.old) (O.faults out.new))
        (sink_seen (E.held err.old) (E.held err.new) (E.faults err.old) (E.faults err.new)) }
{
    let mut bytes = Vec::new(alloc);
    match shelf.load(file, LONGEST_FILE, &mut bytes) {
        Ok(()) => check(alloc, &bytes, out, err),
        Err(fault) => complain_load(err, file, fault),
    }
}

// Puts that a file is accepted, or the line that stands beside a refusal.
fn check<O: Sink, E: Sink>(alloc: Global, bytes: &[u8], out: &mut O, err: &mut E) -> Status
    requires { length bytes.now ≤ longest_file }
    ensures { (told : List ℕ → Option (List ℕ)) (faults taken : ℕ)
        → Answered (record { of = file_stages IsAcceptedLine; loaded = bytes.now ∷ []; loads = [] }) result
        (shelf_seen told faults faults taken taken)
        (sink_seen (O.held out.old) (O.held out.new) (O.faults out.old) (O.faults out.new))
        (sink_seen (E.held err.old) (E.held err.new) (E.faults err.old) (E.faults err.new)) }
{
    if let Err(refusal) = accepted_of_bytes(alloc, bytes) {
        return complain_refusal(err, refusal);
    }
    match put_all(out, &[b"accepted\n"]) {
        Ok(()) => Status::Done,
        Err(_) => Status::WriteFault,
    }
}
