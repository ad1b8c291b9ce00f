//! The command `compile`.
ghost use Rattle.std.specs.Prelude.{◌≤◌, [], ◌∷◌, List, ℕ, length};
ghost use Rattle.std.specs.declared.option.Option.{Option};
ghost use Rattle.anvil_io.specs.Causes.{Puts};
ghost use Rattle.command_words.specs.Form.{compile_form, longest_file};
ghost use Rattle.sv_tree.specs.Text.{modules_text};
ghost use Rattle.tool_answers.specs.Answered.{Answered, shelf_seen, sink_seen};
ghost use Rattle.tool_stages.specs.Output.{IsOutput};
ghost use Rattle.tool_stages.specs.Stages.{file_stages, start_of};

use crate::limits::LONGEST_FILE;
use crate::modules::modules_of_bytes;
use anvil_io::{Shelf, Sink, SinkFault};
use fsm_builder::SvModule;
use std::alloc::Global;
use sv_writer::write_module;
use tool_answers::{Status, complain_load, complain_refusal};

/// Loads a file and puts the modules of its processes, in their order.
pub fn compile_file<S: Shelf, O: Sink, E: Sink>(
    alloc: Global,
    file: &str,
    shelf: &mut S,
    out: &mut O,
    err: &mut E,
) -> Status
    requires { S.may_ask shelf.old file.now }
    ensures { Answered (start_of (compile_form file.now)) result
        (shelf_seen (S.told shelf.old) (S.faults shelf.old) (S.faults shelf.new) (S.taken shelf.old)
        (S.taken shelf.new))
        (sink_seen (O.held out.old) (O.held out.new) (O.faults out.old) (O.faults out.new))
        (sink_seen (E.held err.old) (E.held err.new) (E.faults err.old) (E.faults err.new)) }
{
    let mut bytes = Vec::new(alloc);
    match shelf.load(file, LONGEST_FILE, &mut bytes) {
        Ok(()) => compile(alloc, &bytes, out, err),
        Err(fault) => complain_load(err, file, fault),
    }
}

// Puts the modules of an accepted file, or the line that stands beside a refusal.
fn compile<O: Sink, E: Sink>(alloc: Global, bytes: &[u8], out: &mut O, err: &mut E) -> Status
    requires { length bytes.now ≤ longest_file }
    ensures { (told : List ℕ → Option (List ℕ)) (faults taken : ℕ)
        → Answered (record { of = file_stages IsOutput; loaded = bytes.now ∷ []; loads = [] }) result
        (shelf_seen told faults faults taken taken)
        (sink_seen (O.held out.old) (O.held out.new) (O.faults out.old) (O.faults out.new))
        (sink_seen (E.held err.old) (E.held err.new) (E.faults err.old) (E.faults err.new)) }
{
    let modules = match modules_of_bytes(alloc, bytes) {
        Ok(modules) => modules,
        Err(refusal) => return complain_refusal(err, refusal),
    };
    match put_modules(&modules, out) {
        Ok(()) => Status::Done,
        Err(_) => Status::WriteFault,
    }
}

// The texts of modules, one after the other.
fn put_modules<O: Sink>(modules: &[SvModule], out: &mut O) -> Result<(), SinkFault>
    ensures { Puts (O.held out.old) (O.held out.new) (O.faults out.old) (O.faults out.new)
        (modules_text modules.now) result }
{
    for module in modules {
        write_module(module, out)?;
    }
    Ok(())
}
