//! A simulation of the source run of a process, one row of inputs a cycle.
ghost use Rattle.std.specs.Prelude.{◌≡◌, ◌++◌, ◌∷◌, [], IfOk, IsTrue, List, length};
ghost use Rattle.core_term.specs.declared.rows.Row.{Row as RowSeen};
ghost use Rattle.core_term.specs.Inputs.{Inputs};
ghost use Rattle.core_term.specs.History.{history};
ghost use Rattle.core_term.specs.Outputs.{wires};
ghost use Rattle.core_term.specs.ProcessView.{process_of};
ghost use Rattle.core_term.specs.Rows.{row_fits, cells_shown, registers_shown};
ghost use Rattle.source_sim.specs.Seen.{HasRoom, process_in};
ghost use Rattle.sim_laws.specs.SimLaws.{BeginsWith};
ghost use Rattle.sim_laws.specs.Stands.{StandsAfter};

use crate::parts::{drive, meet, pass, show, show_all, step_all, write};
use crate::start::{
    room_for_drives, room_for_exchanges, start_latests, start_registers, start_threads,
};
use crate::thread::SimThread;
use anvil_bits::Bits;
use core_term::{CoreProc, OutRow, Row};
use exchanges::{Latest, Lives};
use sim_laws::Drive;
use std::alloc::{AllocError, Global};
use std::marker::Model;

/// A process in one of the cycles of its run. Contracts see it as the process and what is kept of the run.
///
/// `drives` and `exchanged` are kept for their room alone. The rows so far are not kept: that a simulation stands after a list of
/// rows is a relation to that list.
#[derive(Drop)]
pub struct Sim<'p> {
    proc: &'p CoreProc,
    begun: bool,
    threads: Vec<SimThread>,
    registers: Vec<Bits>,
    lives: Lives,
    latests: Vec<Latest>,
    drives: Vec<Drive>,
    exchanged: Vec<bool>,
}

impl<'p> Model for Sim<'p> {
    ghost use Rattle.source_sim.specs.Seen.{Seen};
    ghost use Rattle.std.specs.Coded.{codes};
    ghost use Rattle.core_term.specs.contracts.term.CoreTerm as core;

    ghost Value = { Seen };

    ghost coded = { Prim.hlevel (codes, core.the_row.coded) };

    ghost use Rattle.source_sim.specs.Seen.{seen_of, IsSim};

    ghost view = { seen_of };

    ghost invariant = { IsSim };
}

impl<'p> Sim<'p> {
    /// A simulation of the process before cycle 0, in which the registers show their resets.
    ///
    /// Takes all the memory that the cycles need. Refuses only where memory is refused.
    pub fn new(alloc: Global, proc: &'p CoreProc) -> Result<Sim<'p>, AllocError>
        ensures process { IfOk result (λ sim. process_in sim ≡ process_of proc.now.name proc.now.ports.items proc.now.regs.items proc.now.threads.items) }
        ensures stands { IfOk result (λ sim. StandsAfter (process_in sim) [] sim.state) }
    {
        proc.stands();
        let ports = proc.ports.as_slice();
        let regs = proc.regs.as_slice();
        let threads = start_threads(alloc, proc.threads.as_slice(), ports, regs)?;
        let registers = start_registers(alloc, regs)?;
        let lives = Lives::of(alloc, proc)?;
        let latests = start_latests(alloc, ports)?;
        let drives = room_for_drives(alloc, ports.len())?;
        let exchanged = room_for_exchanges(alloc, ports.len())?;
        Ok(Sim {
            proc,
            begun: false,
            threads,
            registers,
            lives,
            latests,
            drives,
            exchanged,
        })
    }

    /// Runs one cycle: shows in `out` what goes out and what the registers show, and goes on.
    ///
    /// `row` has a cell for each port, of its direction and width. `out` has as many cells, and one place for each register; what
    /// it held before does not matter. No memory is taken.
    pub fn step(&mut self, row: &Row, out: &mut OutRow)
        requires row { IsTrue (row_fits (process_in self.old).ports row.now) }
        requires room { HasRoom (process_in self.old) out.old }
        ensures same_process { process_in self.new ≡ process_in self.old }
        ensures room { HasRoom (process_in self.new) out.new }
        ensures stands { (rows : List RowSeen) → StandsAfter (process_in self.old) rows self.old.state → StandsAfter (process_in self.old) (rows ++ row.now ∷ []) self.new.state }
        ensures cells { (rows : List RowSeen) → StandsAfter (process_in self.old) rows self.old.state → (inputs : Inputs) → BeginsWith inputs (rows ++ row.now ∷ []) → out.new.cells.items ≡ cells_shown (wires (process_in self.old) inputs (history (process_in self.old) inputs)) (length rows) 0 (process_in self.old).ports }
        ensures regs { (rows : List RowSeen) → StandsAfter (process_in self.old) rows self.old.state → (inputs : Inputs) → BeginsWith inputs (rows ++ row.now ∷ []) → out.new.regs.items ≡ registers_shown (history (process_in self.old) inputs) (length rows) 0 (process_in self.old).registers }
    {
        let proc = self.proc;
        proc.stands();
        step_all(
            &mut self.threads,
            proc,
            self.begun,
            row.cells.as_slice(),
            self.registers.as_slice(),
        );
        drive(
            proc.ports.as_slice(),
            self.threads.as_slice(),
            &mut self.drives,
        );
        meet(
            row.cells.as_slice(),
            self.drives.as_slice(),
            &mut self.exchanged,
        );
        show(
            proc.ports.as_slice(),
            self.drives.as_slice(),
            self.latests.as_slice(),
            &mut out.cells,
        );
        show_all(self.registers.as_slice(), &mut out.regs);
        pass(
            &self.lives,
            self.exchanged.as_slice(),
            self.drives.as_slice(),
            &mut self.latests,
        );
        write(self.threads.as_slice(), &mut self.registers);
        self.begun = true;
    }
}
