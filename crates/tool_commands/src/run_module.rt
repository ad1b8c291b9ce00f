//! The command `runsv`.
ghost use Rattle.std.specs.Prelude.{◌≤◌, [], ◌∷◌, List, ℕ, length};
ghost use Rattle.std.specs.declared.option.Option.{Option};
ghost use Rattle.core_term.specs.AcceptedFile.{process_in};
ghost use Rattle.command_words.specs.Form.{longest_file, longest_text, runsv_form, stimulus_load, text_load};
ghost use Rattle.checked_files.specs.Named.{IsProcessOf};
ghost use Rattle.module_log.specs.SamePorts.{HasPortsOf};
ghost use Rattle.tool_answers.specs.Answered.{Answered, shelf_seen, sink_seen};
ghost use Rattle.tool_stages.specs.RunModule.{IsPair};
ghost use Rattle.tool_stages.specs.Stages.{module_stages, start_of};

use crate::limits::{LONGEST_FILE, LONGEST_STIMULUS, LONGEST_TEXT};
use crate::logs::complain_breach;
use crate::module_text::module_of_text;
use crate::stimulus::rows_of_text;
use anvil_io::{Shelf, Sink};
use checked_files::process_of_bytes;
use core_term::CoreProc;
use module_log::put_module_log;
use run_log::LogErr;
use std::alloc::Global;
use sv_reader::SvModule;
use tool_answers::{Status, complain_load, complain_memory, complain_refusal};

/// The words of the command.
#[derive(Clone, Copy)]
pub struct ModuleRun<'a> {
    pub file: &'a str,
    pub text: &'a str,
    pub process: &'a str,
    pub stimulus: &'a str,
}

/// Loads a file, a text of modules and a stimulus, and puts the log of the module of the process of the name.
pub fn run_module_file<S: Shelf, O: Sink, E: Sink>(
    alloc: Global,
    words: ModuleRun<'_>,
    shelf: &mut S,
    out: &mut O,
    err: &mut E,
) -> Status
    requires file { S.may_ask shelf.old words.file.now }
    requires text { S.may_ask shelf.old words.text.now }
    requires stimulus { S.may_ask shelf.old words.stimulus.now }
    ensures { Answered
        (start_of (runsv_form words.entry.file.now words.entry.text.now words.entry.process.now
        words.entry.stimulus.now)) result
        (shelf_seen (S.told shelf.old) (S.faults shelf.old) (S.faults shelf.new) (S.taken shelf.old)
        (S.taken shelf.new))
        (sink_seen (O.held out.old) (O.held out.new) (O.faults out.old) (O.faults out.new))
        (sink_seen (E.held err.old) (E.held err.new) (E.faults err.old) (E.faults err.new)) }
{
    let mut bytes = Vec::new(alloc);
    match shelf.load(words.file, LONGEST_FILE, &mut bytes) {
        Ok(()) => choose_process(alloc, &bytes, words, shelf, out, err),
        Err(fault) => complain_load(err, words.file, fault),
    }
}

// From the bytes of the file on.
fn choose_process<S: Shelf, O: Sink, E: Sink>(
    alloc: Global,
    bytes: &[u8],
    words: ModuleRun<'_>,
    shelf: &mut S,
    out: &mut O,
    err: &mut E,
) -> Status
    requires few { length bytes.now ≤ longest_file }
    requires text { S.may_ask shelf.old words.text.now }
    requires stimulus { S.may_ask shelf.old words.stimulus.now }
    ensures { Answered
        (record {
          of = module_stages words.entry.process.now;
          loaded = bytes.now ∷ [];
          loads = text_load words.entry.text.now ∷ stimulus_load words.entry.stimulus.now ∷ [];
        }) result
        (shelf_seen (S.told shelf.old) (S.faults shelf.old) (S.faults shelf.new) (S.taken shelf.old)
        (S.taken shelf.new))
        (sink_seen (O.held out.old) (O.held out.new) (O.faults out.old) (O.faults out.new))
        (sink_seen (E.held err.old) (E.held err.new) (E.faults err.old) (E.faults err.new)) }
{
    match process_of_bytes(alloc, bytes, words.process.as_bytes()) {
        Ok(chosen) => load_modules(alloc, chosen.process(), words, shelf, out, err),
        Err(refusal) => complain_refusal(err, refusal),
    }
}

// From the process on, of whatever file.
fn load_modules<S: Shelf, O: Sink, E: Sink>(
    alloc: Global,
    proc: &CoreProc,
    words: ModuleRun<'_>,
    shelf: &mut S,
    out: &mut O,
    err: &mut E,
) -> Status
    requires text { S.may_ask shelf.old words.text.now }
    requires stimulus { S.may_ask shelf.old words.stimulus.now }
    ensures { (bytes : List ℕ)
        → IsProcessOf bytes words.entry.process.now (process_in proc.now)
        → Answered (record {
          of = module_stages words.entry.process.now;
          loaded = bytes ∷ [];
          loads = text_load words.entry.text.now ∷ stimulus_load words.entry.stimulus.now ∷ [];
        }) result
        (shelf_seen (S.told shelf.old) (S.faults shelf.old) (S.faults shelf.new) (S.taken shelf.old)
        (S.taken shelf.new))
        (sink_seen (O.held out.old) (O.held out.new) (O.faults out.old) (O.faults out.new))
        (sink_seen (E.held err.old) (E.held err.new) (E.faults err.old) (E.faults err.new)) }
{
    let mut text = Vec::new(alloc);
    match shelf.load(words.text, LONGEST_TEXT, &mut text) {
        Ok(()) => choose_module(alloc, proc, &text, words, shelf, out, err),
        Err(fault) => complain_load(err, words.text, fault),
    }
}

// From the text of modules on.
fn choose_module<S: Shelf, O: Sink, E: Sink>(
    alloc: Global,
    proc: &CoreProc,
    text: &[u8],
    words: ModuleRun<'_>,
    shelf: &mut S,
    out: &mut O,
    err: &mut E,
) -> Status
    requires few { length text.now ≤ longest_text }
    requires asked { S.may_ask shelf.old words.stimulus.now }
    ensures { (bytes : List ℕ)
        → IsProcessOf bytes words.entry.process.now (process_in proc.now)
        → Answered (record {
          of = module_stages words.entry.process.now;
          loaded = bytes ∷ text.now ∷ [];
          loads = stimulus_load words.entry.stimulus.now ∷ [];
        }) result
        (shelf_seen (S.told shelf.old) (S.faults shelf.old) (S.faults shelf.new) (S.taken shelf.old)
        (S.taken shelf.new))
        (sink_seen (O.held out.old) (O.held out.new) (O.faults out.old) (O.faults out.new))
        (sink_seen (E.held err.old) (E.held err.new) (E.faults err.old) (E.faults err.new)) }
{
    match module_of_text(alloc, proc, words.process.as_bytes(), text) {
        Ok(found) => load_rows(alloc, proc, found.module(), words.stimulus, shelf, out, err),
        Err(refusal) => complain_refusal(err, refusal),
    }
}

// From the module on, of whatever file, text and name.
fn load_rows<S: Shelf, O: Sink, E: Sink>(
    alloc: Global,
    proc: &CoreProc,
    module: &SvModule,
    stimulus: &str,
    shelf: &mut S,
    out: &mut O,
    err: &mut E,
) -> Status
    requires asked { S.may_ask shelf.old stimulus.now }
    requires same { HasPortsOf (process_in proc.now) «module».now }
    ensures { (bytes text name : List ℕ)
        → IsPair bytes text name (process_in proc.now) «module».now
        → Answered (record {
          of = module_stages name;
          loaded = bytes ∷ text ∷ [];
          loads = stimulus_load stimulus.now ∷ [];
        }) result
        (shelf_seen (S.told shelf.old) (S.faults shelf.old) (S.faults shelf.new) (S.taken shelf.old)
        (S.taken shelf.new))
        (sink_seen (O.held out.old) (O.held out.new) (O.faults out.old) (O.faults out.new))
        (sink_seen (E.held err.old) (E.held err.new) (E.faults err.old) (E.faults err.new)) }
{
    let mut rows = Vec::new(alloc);
    match shelf.load(stimulus, LONGEST_STIMULUS, &mut rows) {
        Ok(()) => run_rows(alloc, proc, module, &rows, out, err),
        Err(fault) => complain_load(err, stimulus, fault),
    }
}

// Puts the log of a module on the rows of a stimulus, or the line that stands beside a refusal.
fn run_rows<O: Sink, E: Sink>(
    alloc: Global,
    proc: &CoreProc,
    module: &SvModule,
    stimulus: &[u8],
    out: &mut O,
    err: &mut E,
) -> Status
    requires { HasPortsOf (process_in proc.now) «module».now }
    ensures { (told : List ℕ → Option (List ℕ)) (faults taken : ℕ) (bytes text name : List ℕ)
        → IsPair bytes text name (process_in proc.now) «module».now
        → Answered (record { of = module_stages name; loaded = bytes ∷ text ∷ stimulus.now ∷ []; loads = [] }) result
        (shelf_seen told faults faults taken taken)
        (sink_seen (O.held out.old) (O.held out.new) (O.faults out.old) (O.faults out.new))
        (sink_seen (E.held err.old) (E.held err.new) (E.faults err.old) (E.faults err.new)) }
{
    let rows = match rows_of_text(alloc, proc, stimulus) {
        Ok(rows) => rows,
        Err(refusal) => return complain_refusal(err, refusal),
    };
    match put_module_log(alloc, proc, module, &rows, out) {
        Ok(None) => Status::Done,
        Ok(Some(broken)) => complain_breach(err, proc, broken),
        Err(LogErr::Fault) => Status::WriteFault,
        Err(LogErr::NoMemory) => complain_memory(err),
    }
}
