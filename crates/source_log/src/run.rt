//! The source run of a process, as a run that is logged.
ghost use Rattle.std.specs.Prelude.{◌≡◌, ◌<◌, ◌+◌, List, ℕ, IsTrue, length, get_or};
ghost use Rattle.core_term.specs.declared.rows.Row.{Row as RowSeen};
ghost use Rattle.core_term.specs.Rows.{row_fits, cells_shown, registers_shown};
ghost use Rattle.run_log.specs.Places.{HasPlaces};
ghost use Rattle.run_log.specs.Shown.{Shown};
ghost use Rattle.source_sim.specs.Seen.{process_in};
ghost use Rattle.source_log.specs.Stands.{StandsBefore};

use core_term::{OutRow, Row};
use run_log::Run;
use source_sim::Sim;

/// A simulation of a process.
#[derive(Drop)]
pub(crate) struct SourceRun<'p> {
    pub sim: Sim<'p>,
}

impl<'p> Run for SourceRun<'p> {
    ghost process = { λ run. process_in run.sim };

    ghost is_ready = { λ run. Unit {0} };

    ghost stands = { λ run rows shown n. StandsBefore run.sim rows shown n };

    fn step(&mut self, row: &Row, out: &mut OutRow)
        requires row { IsTrue (row_fits (process_in self.old.sim).ports row.now) }
        requires places { HasPlaces (process_in self.old.sim) out.old }
        ensures same_process { process_in self.new.sim ≡ process_in self.old.sim }
        ensures places { HasPlaces (process_in self.old.sim) out.new }
        ensures stands { (rows : List RowSeen) (shown : Shown) (n : ℕ) → n < length rows
            → row.now ≡ get_or rows n row.now → StandsBefore self.old.sim rows shown n
            → StandsBefore self.new.sim rows shown (n + 1) }
        ensures cells { (rows : List RowSeen) (shown : Shown) (n : ℕ) → n < length rows
            → row.now ≡ get_or rows n row.now → StandsBefore self.old.sim rows shown n
            → out.new.cells.items ≡ cells_shown shown.wires n 0 (process_in self.old.sim).ports }
        ensures regs { (rows : List RowSeen) (shown : Shown) (n : ℕ) → n < length rows
            → row.now ≡ get_or rows n row.now → StandsBefore self.old.sim rows shown n
            → out.new.regs.items ≡ registers_shown shown.registers n 0 (process_in self.old.sim).registers }
    {
        self.sim.step(row, out);
    }
}
