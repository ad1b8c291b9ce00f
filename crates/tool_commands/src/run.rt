//! The command `run`.
ghost use Rattle.std.specs.Prelude.{◌≤◌, [], ◌∷◌, List, ℕ, length};
ghost use Rattle.std.specs.declared.option.Option.{Option};
ghost use Rattle.core_term.specs.AcceptedFile.{process_in};
ghost use Rattle.command_words.specs.Form.{longest_file, run_form, stimulus_load};
ghost use Rattle.checked_files.specs.Named.{IsProcessOf};
ghost use Rattle.tool_answers.specs.Answered.{Answered, shelf_seen, sink_seen};
ghost use Rattle.tool_stages.specs.Stages.{run_stages, start_of};

use crate::limits::{LONGEST_FILE, LONGEST_STIMULUS};
use crate::logs::complain_breach;
use crate::stimulus::rows_of_text;
use anvil_io::{Shelf, Sink};
use checked_files::process_of_bytes;
use core_term::CoreProc;
use run_log::LogErr;
use source_log::put_log;
use std::alloc::Global;
use tool_answers::{Status, complain_load, complain_memory, complain_refusal};

/// Loads a file and a stimulus, and puts the log of the process of the name.
pub fn run_file<S: Shelf, O: Sink, E: Sink>(
    alloc: Global,
    file: &str,
    process: &str,
    stimulus: &str,
    shelf: &mut S,
    out: &mut O,
    err: &mut E,
) -> Status
    requires file { S.may_ask shelf.old file.now }
    requires stimulus { S.may_ask shelf.old stimulus.now }
    ensures { Answered (start_of (run_form file.now process.now stimulus.now)) result
        (shelf_seen (S.told shelf.old) (S.faults shelf.old) (S.faults shelf.new) (S.taken shelf.old)
        (S.taken shelf.new))
        (sink_seen (O.held out.old) (O.held out.new) (O.faults out.old) (O.faults out.new))
        (sink_seen (E.held err.old) (E.held err.new) (E.faults err.old) (E.faults err.new)) }
{
    let mut bytes = Vec::new(alloc);
    match shelf.load(file, LONGEST_FILE, &mut bytes) {
        Ok(()) => run_process(alloc, &bytes, process, stimulus, shelf, out, err),
        Err(fault) => complain_load(err, file, fault),
    }
}

// From the bytes of the file on.
fn run_process<S: Shelf, O: Sink, E: Sink>(
    alloc: Global,
    bytes: &[u8],
    process: &str,
    stimulus: &str,
    shelf: &mut S,
    out: &mut O,
    err: &mut E,
) -> Status
    requires few { length bytes.now ≤ longest_file }
    requires asked { S.may_ask shelf.old stimulus.now }
    ensures { Answered
        (record { of = run_stages process.now; loaded = bytes.now ∷ []; loads = stimulus_load stimulus.now ∷ [] })
        result (shelf_seen (S.told shelf.old) (S.faults shelf.old) (S.faults shelf.new) (S.taken shelf.old)
        (S.taken shelf.new))
        (sink_seen (O.held out.old) (O.held out.new) (O.faults out.old) (O.faults out.new))
        (sink_seen (E.held err.old) (E.held err.new) (E.faults err.old) (E.faults err.new)) }
{
    match process_of_bytes(alloc, bytes, process.as_bytes()) {
        Ok(chosen) => run_stimulus(alloc, chosen.process(), stimulus, shelf, out, err),
        Err(refusal) => complain_refusal(err, refusal),
    }
}

// From the process on, of whatever file and name.
fn run_stimulus<S: Shelf, O: Sink, E: Sink>(
    alloc: Global,
    proc: &CoreProc,
    stimulus: &str,
    shelf: &mut S,
    out: &mut O,
    err: &mut E,
) -> Status
    requires { S.may_ask shelf.old stimulus.now }
    ensures { (bytes name : List ℕ)
        → IsProcessOf bytes name (process_in proc.now)
        → Answered (record { of = run_stages name; loaded = bytes ∷ []; loads = stimulus_load stimulus.now ∷ [] })
        result (shelf_seen (S.told shelf.old) (S.faults shelf.old) (S.faults shelf.new) (S.taken shelf.old)
        (S.taken shelf.new))
        (sink_seen (O.held out.old) (O.held out.new) (O.faults out.old) (O.faults out.new))
        (sink_seen (E.held err.old) (E.held err.new) (E.faults err.old) (E.faults err.new)) }
{
    let mut text = Vec::new(alloc);
    match shelf.load(stimulus, LONGEST_STIMULUS, &mut text) {
        Ok(()) => run_text(alloc, proc, &text, out, err),
        Err(fault) => complain_load(err, stimulus, fault),
    }
}

// Puts the log of a process on the rows of a text, or the line that stands beside a refusal.
fn run_text<O: Sink, E: Sink>(
    alloc: Global,
    proc: &CoreProc,
    text: &[u8],
    out: &mut O,
    err: &mut E,
) -> Status
    ensures { (told : List ℕ → Option (List ℕ)) (faults taken : ℕ) (bytes name : List ℕ)
        → IsProcessOf bytes name (process_in proc.now)
        → Answered (record { of = run_stages name; loaded = bytes ∷ text.now ∷ []; loads = [] }) result
        (shelf_seen told faults faults taken taken)
        (sink_seen (O.held out.old) (O.held out.new) (O.faults out.old) (O.faults out.new))
        (sink_seen (E.held err.old) (E.held err.new) (E.faults err.old) (E.faults err.new)) }
{
    let rows = match rows_of_text(alloc, proc, text) {
        Ok(rows) => rows,
        Err(refusal) => return complain_refusal(err, refusal),
    };
    match put_log(alloc, proc, &rows, out) {
        Ok(None) => Status::Done,
        Ok(Some(broken)) => complain_breach(err, proc, broken),
        Err(LogErr::Fault) => Status::WriteFault,
        Err(LogErr::NoMemory) => complain_memory(err),
    }
}
