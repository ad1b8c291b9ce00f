//! A module as it grows: ports and registers that stand from the start, and nets that are added.
ghost use Rattle.std.specs.Prelude.{◌≡◌, ◌≤◌, ◌<◌, ◌^◌, ◌+◌, ◌-◌, ◌++◌, ◌∷◌, [], IfOk, IsTrue, length, map};
ghost use Rattle.std.specs.Prelude.{slice_get, slice_index};
ghost use Rattle.anvil_bits.specs.Operators.{truth, not_of, slice_of, choice_of};
ghost use Rattle.core_term.specs.Operators.{operate};
ghost use Rattle.core_term.specs.Sized.{operands_fit};
ghost use Rattle.core_term.specs.Widths.{result_width};
ghost use Rattle.sv_tree.specs.WellFormed.{IsWellFormed, is_name, is_received, is_sent};
ghost use Rattle.sv_tree.specs.Clocked.{registers_at};
ghost use Rattle.module_nets.specs.Netlist.{netlist, Extends, Stands, Fits, IsFrame, IsNetlist, OutsFit, NextsFit};
ghost use Rattle.module_nets.specs.Shifts.{shift_stays, shifts_stay, stays};
ghost use Rattle.module_nets.specs.Shown.{Moment, IsMomentOf, Shows, shown, operation_shown};

use crate::signal::Signal;
use anvil_lexer::Name;
use core_term::BinOp;
use std::alloc::{AllocError, Global};
use std::marker::Model;
use sv_tree::{SvModule, SvNet, SvOp, SvOperand, SvOut, SvPort, SvRef, SvReg};

/// The most nets of a module. More would take more memory than a machine has, so they are refused as memory is.
const MOST_NETS: usize = u32::MAX as usize;

/// Ports, registers and the nets so far. Each method that draws answers a new signal, or `AllocError` where memory is refused.
#[derive(Drop)]
pub struct Netlist {
    ports: Vec<SvPort>,
    regs: Vec<SvReg>,
    nets: Vec<SvNet>,
}

impl Model for Netlist {
    ghost use Rattle.sv_tree.specs.Module.{Module};
    ghost use Rattle.module_nets.specs.Netlist.{netlist, IsNetlist};

    ghost Value = { Module };

    ghost view = { λ kept. netlist kept.ports.items kept.regs.items kept.nets.items };

    ghost invariant = { λ kept. IsNetlist (netlist kept.ports.items kept.regs.items kept.nets.items) };
}

impl Netlist {
    /// A module of these ports and registers, without nets.
    pub fn new(alloc: Global, ports: Vec<SvPort>, regs: Vec<SvReg>) -> Netlist
        requires { IsFrame ports.items regs.items }
        ensures { result ≡ netlist ports.items regs.items [] }
    {
        Netlist {
            ports,
            regs,
            nets: Vec::new(alloc),
        }
    }

    /// The data that comes in on a received port.
    pub fn data(&self, port: u32) -> Signal
        requires { IsTrue (is_received (slice_get self.now.ports port)) }
        ensures stands { Stands self.now result }
        ensures width { result.width ≡ slice_index (map (λ port. port.width) self.now.ports) port }
        ensures shows { (now : Moment) → shown now result ≡ now.inputs.data_at port now.cycle }
    {
        Signal {
            operand: SvOperand::Ref(SvRef::Data(port)),
            width: self.ports[port as usize].width,
        }
    }

    /// Whether something is offered on a received port.
    pub fn valid(&self, port: u32) -> Signal
        requires { IsTrue (is_received (slice_get self.now.ports port)) }
        ensures stands { Stands self.now result }
        ensures width { result.width ≡ 1 }
        ensures shows { (now : Moment) → shown now result ≡ truth (now.inputs.valid port now.cycle) }
    {
        Signal {
            operand: SvOperand::Ref(SvRef::Valid(port)),
            width: 1,
        }
    }

    /// Whether what is offered on a sent port is taken.
    pub fn ack(&self, port: u32) -> Signal
        requires { IsTrue (is_sent (slice_get self.now.ports port)) }
        ensures stands { Stands self.now result }
        ensures width { result.width ≡ 1 }
        ensures shows { (now : Moment) → shown now result ≡ truth (now.inputs.ack port now.cycle) }
    {
        Signal {
            operand: SvOperand::Ref(SvRef::Ack(port)),
            width: 1,
        }
    }

    /// What a register shows.
    pub fn register(&self, place: u32) -> Signal
        requires { place < length self.now.regs }
        ensures stands { Stands self.now result }
        ensures width { result.width ≡ slice_index (map (λ reg. reg.width) self.now.regs) place }
        ensures shows { (now : Moment) →
            shown now result ≡ slice_index (registers_at now.tree now.inputs now.cycle) place }
    {
        Signal {
            operand: SvOperand::Ref(SvRef::Reg(place)),
            width: self.regs[place as usize].width,
        }
    }

    /// The whole module, with what each port is given and what each register takes at the end of a cycle.
    pub fn finish(self, proc: Name, outs: Vec<SvOut>, nexts: Vec<SvOperand>) -> SvModule
        requires name { IsTrue (is_name proc) }
        requires outs { OutsFit self self.ports outs.items }
        requires nexts { NextsFit self self.regs nexts.items }
        ensures exact { result ≡ record {
          proc = proc;
          ports = self.ports;
          regs = self.regs;
          nets = self.nets;
          outs = outs.items;
          nexts = nexts.items;
        } }
        ensures extends { Extends self result }
        ensures well_formed { IsWellFormed result }
        ensures shifts { IsTrue (shifts_stay result.nets) }
    {
        let Netlist { ports, regs, nets } = self;
        SvModule::new(proc, ports, regs, nets, outs, nexts)
    }

    /// The complement of each bit.
    pub fn not(&mut self, operand: &Signal) -> Result<Signal, AllocError>
        requires { Stands self.old operand.now }
        ensures extends { IfOk result (λ drawn. Extends self.old self.new) }
        ensures stands { IfOk result (λ drawn. Stands self.new drawn) }
        ensures width { IfOk result (λ drawn. drawn.width ≡ operand.now.width) }
        ensures shows { IfOk result (λ drawn. Shows self.new drawn
            (λ now. not_of operand.now.width (shown now operand.now))) }
    {
        self.add(operand.width, SvOp::Not(operand.operand))
    }

    /// What an operator of two operands gives. No shift is by a literal of the width or more.
    pub fn bin(&mut self, op: BinOp, left: &Signal, right: &Signal) -> Result<Signal, AllocError>
        requires left { Stands self.old left.now }
        requires right { Stands self.old right.now }
        requires fits { IsTrue (operands_fit op left.now.width right.now.width) }
        requires stays { IsTrue (stays op (result_width op left.now.width right.now.width) right.now.operand) }
        ensures extends { IfOk result (λ drawn. Extends self.old self.new) }
        ensures stands { IfOk result (λ drawn. Stands self.new drawn) }
        ensures width { IfOk result (λ drawn. drawn.width ≡ result_width op left.now.width right.now.width) }
        ensures shows { IfOk result (λ drawn. Shows self.new drawn
            (λ now. operate op (result_width op left.now.width right.now.width) right.now.width
            (shown now left.now) (shown now right.now))) }
    {
        let width = width_of(op, left.width, right.width);
        self.add(width, SvOp::Bin(op, left.operand, right.operand))
    }

    /// The first where the condition, of one bit, is 1, and else the second.
    pub fn choose(
        &mut self,
        condition: &Signal,
        first: &Signal,
        second: &Signal,
    ) -> Result<Signal, AllocError>
        requires condition { Stands self.old condition.now }
        requires first { Stands self.old first.now }
        requires second { Stands self.old second.now }
        requires one_bit { condition.now.width ≡ 1 }
        requires same { second.now.width ≡ first.now.width }
        ensures extends { IfOk result (λ drawn. Extends self.old self.new) }
        ensures stands { IfOk result (λ drawn. Stands self.new drawn) }
        ensures width { IfOk result (λ drawn. drawn.width ≡ first.now.width) }
        ensures shows { IfOk result (λ drawn. Shows self.new drawn
            (λ now. choice_of (shown now condition.now) (shown now first.now) (shown now second.now))) }
    {
        self.add(
            first.width,
            SvOp::Choose(condition.operand, first.operand, second.operand),
        )
    }

    /// The bits from `high` down to `low`. Those of a literal are a literal.
    pub fn slice(&mut self, operand: &Signal, high: u8, low: u8) -> Result<Signal, AllocError>
        requires stands { Stands self.old operand.now }
        requires ordered { low ≤ high }
        requires within { high < operand.now.width }
        ensures extends { IfOk result (λ drawn. Extends self.old self.new) }
        ensures stands { IfOk result (λ drawn. Stands self.new drawn) }
        ensures width { IfOk result (λ drawn. drawn.width ≡ high + 1 - low) }
        ensures shows { IfOk result (λ drawn. Shows self.new drawn (λ now. slice_of high low (shown now operand.now))) }
    {
        match operand.operand {
            SvOperand::Ref(of) => self.add(high - low + 1, SvOp::Slice { of, high, low }),
            SvOperand::Lit(number) => Ok(Signal::literal(number.slice(high, low))),
        }
    }

    /// One net more.
    fn add(&mut self, width: u8, op: SvOp) -> Result<Signal, AllocError>
        requires some { 1 ≤ width }
        requires few { width ≤ 64 }
        requires fits { Fits self.old width op }
        requires stays { IsTrue (shift_stays width op) }
        ensures extends { IfOk result (λ drawn. Extends self.old self.new) }
        ensures stands { IfOk result (λ drawn. Stands self.new drawn) }
        ensures width { IfOk result (λ drawn. drawn.width ≡ width) }
        ensures shows { IfOk result (λ drawn. Shows self.new drawn (λ now. operation_shown now width op)) }
    {
        let place = self.nets.len();
        if place >= MOST_NETS {
            return Err(AllocError);
        }
        self.nets.push(SvNet { width, op })?;
        Ok(Signal {
            operand: SvOperand::Ref(SvRef::Net(place as u32)),
            width,
        })
    }
}

/// How many bits an operator gives, from those of its operands.
fn width_of(op: BinOp, left: u8, right: u8) -> u8
    requires some { 1 ≤ left }
    requires few { left ≤ 64 }
    requires fits { IsTrue (operands_fit op left right) }
    ensures width { result ≡ result_width op left right }
    ensures some { 1 ≤ result }
    ensures few { result ≤ 64 }
{
    match op {
        BinOp::Add | BinOp::Sub | BinOp::Mul | BinOp::And | BinOp::Or | BinOp::Xor => left,
        BinOp::Shl | BinOp::Shr => left,
        BinOp::Eq | BinOp::Ne | BinOp::Lt | BinOp::Le | BinOp::Gt | BinOp::Ge => 1,
        BinOp::Cat => left + right,
    }
}
