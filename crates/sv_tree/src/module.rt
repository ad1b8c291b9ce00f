//! A whole module, which keeps that it is well-formed.
ghost use Rattle.std.specs.Prelude.{◌≡◌};
ghost use Rattle.sv_tree.specs.WellFormed.{IsWellFormed};

use crate::tree::{SvNet, SvOperand, SvOut, SvPort, SvReg};
use anvil_lexer::Name;
use std::marker::Model;

/// A well-formed module. Contracts see it as the record of its parts.
#[derive(Drop)]
pub struct SvModule {
    proc: Name,
    ports: Vec<SvPort>,
    regs: Vec<SvReg>,
    nets: Vec<SvNet>,
    outs: Vec<SvOut>,
    nexts: Vec<SvOperand>,
}

impl Model for SvModule {
    ghost use Rattle.sv_tree.specs.Module.{Module};

    ghost Value = { Module };

    ghost use Rattle.sv_tree.specs.WellFormed.{IsWellFormed};

    ghost view = { λ m. record { proc = m.proc; ports = m.ports.items; regs = m.regs.items; nets = m.nets.items; outs = m.outs.items; nexts = m.nexts.items } };

    ghost invariant = { λ m. IsWellFormed record { proc = m.proc; ports = m.ports.items; regs = m.regs.items; nets = m.nets.items; outs = m.outs.items; nexts = m.nexts.items } };
}

impl SvModule {
    /// The module of these parts. It takes no memory: the parts are kept as they are.
    ///
    /// `outs` has one output per port, `nexts` one next value per register.
    pub fn new(
        proc: Name,
        ports: Vec<SvPort>,
        regs: Vec<SvReg>,
        nets: Vec<SvNet>,
        outs: Vec<SvOut>,
        nexts: Vec<SvOperand>,
    ) -> SvModule
        requires { IsWellFormed record { proc = proc; ports = ports.items; regs = regs.items; nets = nets.items; outs = outs.items; nexts = nexts.items } }
        ensures { result ≡ record { proc = proc; ports = ports.items; regs = regs.items; nets = nets.items; outs = outs.items; nexts = nexts.items } }
    {
        SvModule {
            proc,
            ports,
            regs,
            nets,
            outs,
            nexts,
        }
    }

    /// The name of the process of which the module is written.
    pub fn proc(&self) -> &Name
        ensures proc { result.now ≡ self.now.proc }
        ensures well_formed { IsWellFormed self.now }
    {
        &self.proc
    }

    /// The message ports.
    pub fn ports(&self) -> &[SvPort]
        ensures ports { result.now ≡ self.now.ports }
        ensures well_formed { IsWellFormed self.now }
    {
        self.ports.as_slice()
    }

    /// The registers, those of the source before the states.
    pub fn regs(&self) -> &[SvReg]
        ensures regs { result.now ≡ self.now.regs }
        ensures well_formed { IsWellFormed self.now }
    {
        self.regs.as_slice()
    }

    /// The nets, in the order in which they are valued.
    pub fn nets(&self) -> &[SvNet]
        ensures nets { result.now ≡ self.now.nets }
        ensures well_formed { IsWellFormed self.now }
    {
        self.nets.as_slice()
    }

    /// What each port is given, in port order.
    pub fn outs(&self) -> &[SvOut]
        ensures outs { result.now ≡ self.now.outs }
        ensures well_formed { IsWellFormed self.now }
    {
        self.outs.as_slice()
    }

    /// What each register takes at the end of a cycle, in register order.
    pub fn nexts(&self) -> &[SvOperand]
        ensures nexts { result.now ≡ self.now.nexts }
        ensures well_formed { IsWellFormed self.now }
    {
        self.nexts.as_slice()
    }
}
