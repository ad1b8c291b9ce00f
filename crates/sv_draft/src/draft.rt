//! The module that is being read, as far as it has been read.
ghost use Rattle.std.specs.Prelude.{◌≡◌, ◌<◌, None, Some, length, slice_get, true, MatchOption, MatchResult};
ghost use Rattle.sv_tree.specs.Limits.{too_many};
ghost use Rattle.sv_tree.specs.WellFormed.{IsWellFormed};
ghost use Rattle.sv_lines.specs.Step.{has_room, is_fresh, may_add};
ghost use Rattle.sv_lines.specs.State.{new_module, with_net, with_next, with_out, with_port, with_register, with_reset, reset_to};
ghost use Rattle.sv_draft.specs.SeenDraft.{draft_of};
ghost use Rattle.sv_draft.specs.declared.fault.Fault.TheVariants.{NoMemory};

use crate::fault::Fault;
use crate::nets::NetList;
use crate::ports::PortTable;
use crate::registers::RegisterTable;
use crate::room::push;
use anvil_bits::Bits;
use anvil_lexer::Name;
use std::alloc::Global;
use sv_tree::{SvModule, SvOp, SvOperand, SvOut, SvPort, SvReg};

/// A module as far as it has been read.
#[derive(Drop)]
pub struct Draft {
    pub proc: Name,
    pub ports: PortTable,
    pub regs: RegisterTable,
    pub nets: NetList,
    pub outs: Vec<SvOut>,
    pub nexts: Vec<SvOperand>,
}

impl Draft {
    /// Of a name alone.
    pub fn new(alloc: Global, proc: Name) -> Draft
        ensures { draft_of result ≡ new_module proc }
    {
        Draft {
            proc,
            ports: PortTable::new(alloc),
            regs: RegisterTable::new(alloc),
            nets: NetList::new(alloc),
            outs: Vec::new(alloc),
            nexts: Vec::new(alloc),
        }
    }

    /// The module, which is whole.
    pub fn into_module(self) -> SvModule
        requires { IsWellFormed (draft_of self) }
        ensures { result ≡ draft_of self }
    {
        let Draft {
            proc,
            ports,
            regs,
            nets,
            outs,
            nexts,
        } = self;
        SvModule::new(
            proc,
            ports.into_ports(),
            regs.into_regs(),
            nets.into_nets(),
            outs,
            nexts,
        )
    }

    /// The port of which an output is wanted.
    pub fn wanted_port(&self) -> Option<&SvPort>
        ensures { MatchOption result
            (slice_get self.now.ports (length self.now.outs.items) ≡ None)
            (λ port. slice_get self.now.ports (length self.now.outs.items) ≡ Some port.now) }
    {
        self.ports.ports().get(self.outs.len())
    }

    /// The register of which a next value is wanted.
    pub fn wanted_register(&self) -> Option<&SvReg>
        ensures { MatchOption result
            (slice_get self.now.regs (length self.now.nexts.items) ≡ None)
            (λ reg. slice_get self.now.regs (length self.now.nexts.items) ≡ Some reg.now) }
    {
        self.regs.get(self.nexts.len())
    }

    /// Puts a port after the others.
    pub fn add_port(&mut self, port: SvPort) -> Result<(), Fault>
        requires { may_add (draft_of self.old) port ≡ true }
        ensures { MatchResult result
            (λ _. draft_of self.new ≡ with_port (draft_of self.old) port)
            (λ fault. fault ≡ NoMemory) }
    {
        self.ports.add(port)
    }

    /// Puts a register after the others.
    pub fn add_register(&mut self, reg: SvReg) -> Result<(), Fault>
        requires fresh { is_fresh (draft_of self.old) reg.name ≡ true }
        requires room { has_room (length self.old.regs) ≡ true }
        ensures { MatchResult result
            (λ _. draft_of self.new ≡ with_register (draft_of self.old) reg)
            (λ fault. fault ≡ NoMemory) }
    {
        self.regs.add(reg)
    }

    /// Puts a net after the others.
    pub fn add_net(&mut self, width: u8, op: SvOp) -> Result<(), Fault>
        requires { has_room (length self.old.nets) ≡ true }
        ensures { MatchResult result
            (λ _. draft_of self.new ≡ with_net (draft_of self.old) record { width = width; op = op })
            (λ fault. fault ≡ NoMemory) }
    {
        self.nets.add(width, op)
    }

    /// Puts an output after the others.
    pub fn add_out(&mut self, out: SvOut) -> Result<(), Fault>
        ensures { MatchResult result
            (λ _. draft_of self.new ≡ with_out (draft_of self.old) out)
            (λ fault. fault ≡ NoMemory) }
    {
        push(&mut self.outs, out)
    }

    /// Puts a next value after the others.
    pub fn add_next(&mut self, next: SvOperand) -> Result<(), Fault>
        ensures { MatchResult result
            (λ _. draft_of self.new ≡ with_next (draft_of self.old) next)
            (λ fault. fault ≡ NoMemory) }
    {
        push(&mut self.nexts, next)
    }

    /// Gives the register of this index its reset.
    pub fn set_reset(&mut self, index: usize, reset: Bits)
        requires { index < length self.old.regs }
        ensures few { index < too_many }
        ensures reset { (reg : SvReg) → slice_get self.old.regs index ≡ Some reg
            → draft_of self.new ≡ with_reset (draft_of self.old) index (reset_to reg reset) }
    {
        self.regs.set_reset(index, reset);
    }
}
