//! One cycle of a thread: its turn goes on, or the next turn begins.
ghost use Rattle.std.specs.Prelude.{◌≡◌};
ghost use Rattle.sim_laws.specs.Passes.{cleared};
ghost use Rattle.source_sim.specs.NowSeen.{term_now, TermFits, IsSeen, advance_now, step_now};

use crate::advance::advance;
use crate::now::Now;
use crate::passes::{clear, drive_all, write_all};
use crate::start::start_acts;
use crate::widths::add_widths;
use anvil_bits::Bits;
use core_term::{CorePort, CoreReg, CoreTerm, InCell};
use sim_laws::{ActState, Drive};
use std::alloc::{AllocError, Global};
use std::marker::Model;

/// A turn begins.
fn begin_turn(body: &CoreTerm, now: &Now, acts: &mut [ActState])
    requires fits { TermFits now.now (term_now now.now body.now) }
    requires seen { IsSeen now.now acts.old }
    ensures acts { acts.new ≡ (advance_now now.now (term_now now.now body.now) (cleared acts.old)).acts }
    ensures seen { IsSeen now.now acts.new }
{
    clear(acts);
    advance(body, now, acts);
}

/// One cycle of a thread, of which a turn has begun or none has.
pub fn step_thread(body: &CoreTerm, begun: bool, now: &Now, acts: &mut [ActState])
    requires fits { TermFits now.now (term_now now.now body.now) }
    requires seen { IsSeen now.now acts.old }
    ensures acts { acts.new ≡ step_now now.now (term_now now.now body.now) begun acts.old }
    ensures seen { IsSeen now.now acts.new }
{
    if begun {
        match advance(body, now, acts) {
            None => {}
            Some(_) => begin_turn(body, now, acts),
        }
    } else {
        begin_turn(body, now, acts);
    }
}

/// A thread in its present turn. Contracts see it as the widths of its variables and what is kept of its acts.
#[derive(Drop)]
pub struct SimThread {
    widths: Vec<u8>,
    acts: Vec<ActState>,
}

impl Model for SimThread {
    ghost use Rattle.sim_laws.specs.Kept.{Kept};

    ghost Value = { Kept };

    ghost view = { λ t. record { widths = t.widths.items; acts = t.acts.items } };
}

impl SimThread {
    ghost use Rattle.std.specs.Prelude.{◌≡◌, IfOk, IsTrue, length, map};
    ghost use Rattle.core_term.specs.ProcessView.{port_of};
    ghost use Rattle.core_term.specs.Rows.{cells_fit};
    ghost use Rattle.sim_laws.specs.Kept.{IsReady, stepped};
    ghost use Rattle.sim_laws.specs.WidthsFound.{start_of};
    ghost use Rattle.sim_laws.specs.Passes.{drive_all as all_driven, write_all as all_written};
    ghost use Rattle.sim_laws.specs.Typed.{AreRegisters};

    /// A thread with this body, of which no turn has begun.
    pub fn new(
        alloc: Global,
        body: &CoreTerm,
        ports: &[CorePort],
        regs: &[CoreReg],
    ) -> Result<SimThread, AllocError>
        ensures { IfOk result (λ thread. thread ≡ start_of ports.now regs.now body.now) }
    {
        let mut widths = Vec::new(alloc);
        add_widths(body, ports, regs, &mut widths)?;
        let acts = start_acts(alloc, widths.as_slice())?;
        Ok(SimThread { widths, acts })
    }

    /// One cycle of the thread, with this body.
    pub fn step(
        &mut self,
        body: &CoreTerm,
        begun: bool,
        ports: &[CorePort],
        regs: &[CoreReg],
        cells: &[InCell],
        registers: &[Bits],
    )
        requires ready { IsReady ports.now regs.now (length registers.now) body.now self.old }
        requires registers { AreRegisters regs.now registers.now }
        requires cells { IsTrue (cells_fit (map port_of ports.now) cells.now) }
        ensures next { self.new ≡ stepped ports.now regs.now cells.now registers.now body.now begun self.old }
        ensures ready { IsReady ports.now regs.now (length registers.now) body.now self.new }
    {
        let now = Now {
            ports,
            regs,
            cells,
            registers,
            widths: self.widths.as_slice(),
        };
        step_thread(body, begun, &now, self.acts.as_mut_slice());
    }

    /// Marks what its acts drive.
    pub fn drive(&self, drives: &mut [Drive])
        ensures { drives.new ≡ all_driven self.now.acts drives.old }
    {
        drive_all(self.acts.as_slice(), drives);
    }

    /// Writes what its acts set.
    pub fn write(&self, registers: &mut [Bits])
        ensures { registers.new ≡ all_written self.now.acts registers.old }
    {
        write_all(self.acts.as_slice(), registers);
    }
}
