//! A module of a process, as a run that is logged.
ghost use Rattle.std.specs.Prelude.{◌≡◌, ◌<◌, ◌+◌, List, ℕ, IsTrue, length, get_or, map};
ghost use Rattle.core_term.specs.declared.rows.Row.{Row as RowSeen};
ghost use Rattle.core_term.specs.ProcessView.{port_of, process_of, register_of};
ghost use Rattle.core_term.specs.Rows.{row_fits, cells_shown, registers_shown};
ghost use Rattle.run_log.specs.Places.{HasPlaces};
ghost use Rattle.run_log.specs.Shown.{Shown};
ghost use Rattle.module_log.specs.Runs.{process_in};
ghost use Rattle.module_log.specs.Stands.{IsMachineOf, StandsBefore};

use core_term::{CoreProc, OutRow, Row};
use run_log::Run;
use sv_meaning::Machine;

/// A machine that runs a module of a process.
#[derive(Drop)]
pub(crate) struct ModuleRun<'a> {
    pub proc: &'a CoreProc,
    pub machine: Machine<'a>,
}

impl<'a> Run for ModuleRun<'a> {
    ghost process = { λ run. process_in run };

    ghost is_ready = { λ run. IsMachineOf (process_in run) run.machine };

    ghost stands = { λ run rows shown n. StandsBefore (process_in run) run.machine rows shown n };

    fn step(&mut self, row: &Row, out: &mut OutRow)
        requires ready { IsMachineOf (process_in self.old) self.old.machine }
        requires row { IsTrue (row_fits (process_in self.old).ports row.now) }
        requires places { HasPlaces (process_in self.old) out.old }
        ensures same_process { process_in self.new ≡ process_in self.old }
        ensures ready { IsMachineOf (process_in self.new) self.new.machine }
        ensures places { HasPlaces (process_in self.old) out.new }
        ensures stands { (rows : List RowSeen) (shown : Shown) (n : ℕ) → n < length rows
            → row.now ≡ get_or rows n row.now → StandsBefore (process_in self.old) self.old.machine rows shown n
            → StandsBefore (process_in self.new) self.new.machine rows shown (n + 1) }
        ensures cells { (rows : List RowSeen) (shown : Shown) (n : ℕ) → n < length rows
            → row.now ≡ get_or rows n row.now → StandsBefore (process_in self.old) self.old.machine rows shown n
            → out.new.cells.items ≡ cells_shown shown.wires n 0 (process_in self.old).ports }
        ensures regs { (rows : List RowSeen) (shown : Shown) (n : ℕ) → n < length rows
            → row.now ≡ get_or rows n row.now → StandsBefore (process_in self.old) self.old.machine rows shown n
            → out.new.regs.items ≡ registers_shown shown.registers n 0 (process_in self.old).registers }
    {
        self.machine.step(row, out);
    }
}
