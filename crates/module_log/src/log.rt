//! The whole log.
ghost use Rattle.std.specs.Prelude.{◌≤◌, IsTrue, length, map, MatchOption, MatchResult};
ghost use Rattle.std.specs.List.{All};
ghost use Rattle.core_term.specs.ProcessView.{port_of, process_of};
ghost use Rattle.core_term.specs.Rows.{row_fits};
ghost use Rattle.stim_text.specs.Answers.{most_rows};
ghost use Rattle.run_log.specs.Log.{IsFailed, IsStopped, IsWhole};
ghost use Rattle.module_log.specs.Log.{module_shown};
ghost use Rattle.module_log.specs.SamePorts.{HasPortsOf};

use crate::run::ModuleRun;
use anvil_io::Sink;
use core_term::{CoreProc, Row};
use run_log::{Broken, LogErr, put_run};
use std::alloc::Global;
use sv_meaning::Machine;
use sv_tree::SvModule;

/// Puts the log of a module of a process on rows, by its clocked meaning: a line for each cycle before the first in which a
/// received port breaks its promise, or for all where none does. It answers that cycle and the first such port.
///
/// Needs a module with the ports and source registers of the process, and rows that fit the process, at most as many as a
/// stimulus may have. All memory is taken before the first put.
pub fn put_module_log<O: Sink>(
    alloc: Global,
    proc: &CoreProc,
    module: &SvModule,
    rows: &[Row],
    out: &mut O,
) -> Result<Option<Broken>, LogErr>
    requires few { length rows.now ≤ most_rows }
    requires fit { All (λ row. IsTrue (row_fits (map port_of proc.now.ports.items) row)) rows.now }
    requires same { HasPortsOf
        (process_of proc.now.name proc.now.ports.items proc.now.regs.items proc.now.threads.items)
        «module».now }
    ensures { MatchResult result
        (λ found. MatchOption found
        (IsWhole (process_of proc.now.name proc.now.ports.items proc.now.regs.items proc.now.threads.items)
        (module_shown (process_of proc.now.name proc.now.ports.items proc.now.regs.items proc.now.threads.items)
        «module».now rows.now)
        (length rows.now) (O.held out.old) (O.held out.new) (O.faults out.old) (O.faults out.new))
        (λ broken. IsStopped (process_of proc.now.name proc.now.ports.items proc.now.regs.items proc.now.threads.items)
        (module_shown (process_of proc.now.name proc.now.ports.items proc.now.regs.items proc.now.threads.items)
        «module».now rows.now)
        broken (O.held out.old) (O.held out.new) (O.faults out.old) (O.faults out.new)))
        (λ fault. IsFailed (process_of proc.now.name proc.now.ports.items proc.now.regs.items proc.now.threads.items)
        (module_shown (process_of proc.now.name proc.now.ports.items proc.now.regs.items proc.now.threads.items)
        «module».now rows.now)
        (length rows.now) fault (O.held out.old) (O.held out.new) (O.faults out.old) (O.faults out.new)) }
{
    // read for the fact alone that the module is well-formed
    let _ports = module.ports();
    let Ok(machine) = Machine::new(alloc, module) else {
        return Err(LogErr::NoMemory);
    };
    let mut run = ModuleRun { proc, machine };
    put_run(alloc, proc, rows, &mut run, out)
}
