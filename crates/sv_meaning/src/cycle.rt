//! One cycle of a module: the values of its nets in order, then what they give to outputs and registers.
ghost use Rattle.std.specs.Prelude.{◌≡◌, ◌≤◌, ◌<◌, [], IsTrue, Some, length, map, slice_get, vec_capacity};
ghost use Rattle.anvil_bits.specs.Number.{widest};
ghost use Rattle.anvil_bits.specs.Operators.{truth};
ghost use Rattle.core_term.specs.Rows.{number_of, nth_cell};
ghost use Rattle.sv_tree.specs.WellFormed.{IsWellFormed, is_received, is_sent, ref_stands, operand_stands, op_fits};
ghost use Rattle.sv_tree.specs.Clocked.{net_values};
ghost use Rattle.sv_meaning.specs.Cycle.{IsCycle, AreNets, AreAllNets, in_cells, values, name_in, operand_in, net_in, out_in, out_stands};

use crate::operator::operate;
use anvil_bits::Bits;
use core_term::{InCell, OutCell};
use sv_tree::{SvModule, SvNet, SvOp, SvOperand, SvOut, SvRef};

/// A cycle: what comes in, and what the registers show.
#[derive(Drop)]
pub struct Cycle<'a> {
    pub module: &'a SvModule,
    pub cells: &'a [InCell],
    pub registers: &'a [Bits],
}

impl<'a> Cycle<'a> {
    /// What comes in on a port.
    fn cell(&self, port: u32) -> InCell
        requires { port < length self.now.cells.now }
        ensures { nth_cell self.now.cells.now port ≡ Some result }
    {
        self.cells[port as usize]
    }

    /// What comes in on the `data` of a received port.
    fn data(&self, port: u32) -> Bits
        requires cycle { IsCycle self.now }
        requires received { IsTrue (is_received (slice_get self.now.module.now.ports port)) }
        ensures { result ≡ name_in self.now [] (SvRef.Data port) }
    {
        match self.cell(port) {
            InCell::Received { value, .. } => value,
            InCell::Sent { .. } => unreachable!(),
        }
    }

    /// What comes in on the `valid` of a received port.
    fn valid(&self, port: u32) -> Bits
        requires cycle { IsCycle self.now }
        requires received { IsTrue (is_received (slice_get self.now.module.now.ports port)) }
        ensures { result ≡ name_in self.now [] (SvRef.Valid port) }
    {
        match self.cell(port) {
            InCell::Received { valid, .. } => bit(valid),
            InCell::Sent { .. } => unreachable!(),
        }
    }

    /// What comes in on the `ack` of a sent port.
    fn ack(&self, port: u32) -> Bits
        requires cycle { IsCycle self.now }
        requires sent { IsTrue (is_sent (slice_get self.now.module.now.ports port)) }
        ensures { result ≡ name_in self.now [] (SvRef.Ack port) }
    {
        match self.cell(port) {
            InCell::Received { .. } => unreachable!(),
            InCell::Sent { ack } => bit(ack),
        }
    }

    /// What a name shows, over the nets valued so far.
    fn name(&self, nets: &[Bits], name: SvRef) -> Bits
        requires cycle { IsCycle self.now }
        requires nets { AreNets self.now.module.now nets.now }
        requires stands { IsTrue (ref_stands self.now.module.now (length nets.now) name) }
        ensures { result ≡ name_in self.now nets.now name }
    {
        match name {
            SvRef::Data(port) => self.data(port),
            SvRef::Valid(port) => self.valid(port),
            SvRef::Ack(port) => self.ack(port),
            SvRef::Reg(register) => self.registers[register as usize],
            SvRef::Net(net) => nets[net as usize],
        }
    }

    /// What an operand shows, over the nets valued so far.
    fn operand(&self, nets: &[Bits], operand: SvOperand) -> Bits
        requires cycle { IsCycle self.now }
        requires nets { AreNets self.now.module.now nets.now }
        requires stands { IsTrue (operand_stands self.now.module.now (length nets.now) operand) }
        ensures { result ≡ operand_in self.now nets.now operand }
    {
        match operand {
            SvOperand::Ref(name) => self.name(nets, name),
            SvOperand::Lit(number) => number,
        }
    }

    /// What a net shows, over those before it.
    fn net(&self, nets: &[Bits], net: SvNet) -> Bits
        requires cycle { IsCycle self.now }
        requires nets { AreNets self.now.module.now nets.now }
        requires width { net.width ≤ widest }
        requires fits { IsTrue (op_fits self.now.module.now (length nets.now) net.width net.op) }
        ensures { result ≡ net_in self.now nets.now net }
    {
        match net.op {
            SvOp::Not(x) => self.operand(nets, x).not(),
            SvOp::Bin(operator, x, y) => {
                operate(operator, self.operand(nets, x), self.operand(nets, y))
            }
            SvOp::Slice { of, high, low } => self.name(nets, of).slice(high, low),
            SvOp::Choose(condition, x, y) => self
                .operand(nets, condition)
                .mux(self.operand(nets, x), self.operand(nets, y)),
        }
    }

    /// Values the nets in order.
    pub fn value_nets(&self, nets: &mut Vec<Bits>)
        requires cycle { IsCycle self.now }
        requires room { length self.now.module.now.nets ≤ vec_capacity nets.old }
        ensures well_formed { IsWellFormed self.now.module.now }
        ensures nets { AreAllNets self.now.module.now nets.new.items }
        ensures values { values nets.new.items ≡ net_values self.now.module.now (in_cells self.now.cells.now) 0 (values self.now.registers.now) }
        ensures room { vec_capacity nets.new ≡ vec_capacity nets.old }
    {
        nets.clear();
        for net in self.module.nets() {
            let number = self.net(nets.as_slice(), *net);
            nets.push_reserved(number);
        }
    }

    /// What the registers take at the end of the cycle.
    pub fn value_nexts(&self, nets: &[Bits], nexts: &mut Vec<Bits>)
        requires cycle { IsCycle self.now }
        requires nets { AreAllNets self.now.module.now nets.now }
        requires room { length self.now.module.now.nexts ≤ vec_capacity nexts.old }
        ensures nexts { nexts.new.items ≡ map (operand_in self.now nets.now) self.now.module.now.nexts }
        ensures room { vec_capacity nexts.new ≡ vec_capacity nexts.old }
    {
        nexts.clear();
        for next in self.module.nexts() {
            nexts.push_reserved(self.operand(nets, *next));
        }
    }

    /// What goes out on a port.
    fn out(&self, nets: &[Bits], out: SvOut) -> OutCell
        requires cycle { IsCycle self.now }
        requires nets { AreAllNets self.now.module.now nets.now }
        requires stands { IsTrue (out_stands self.now.module.now out) }
        ensures { result ≡ out_in self.now nets.now out }
    {
        match out {
            SvOut::Received { ack } => OutCell::Received {
                ack: self.operand(nets, ack).value() == 1,
            },
            SvOut::Sent { value, valid } => OutCell::Sent {
                valid: self.operand(nets, valid).value() == 1,
                value: self.operand(nets, value),
            },
        }
    }

    /// Shows what goes out on each port.
    pub fn show_outs(&self, nets: &[Bits], cells: &mut [OutCell])
        requires cycle { IsCycle self.now }
        requires nets { AreAllNets self.now.module.now nets.now }
        requires cells { length cells.old ≡ length self.now.module.now.outs }
        ensures { cells.new ≡ map (out_in self.now nets.now) self.now.module.now.outs }
    {
        for (index, out) in self.module.outs().iter().enumerate() {
            cells[index] = self.out(nets, *out);
        }
    }
}

/// A test as a number of one bit.
fn bit(test: bool) -> Bits
    ensures { result ≡ number_of 1 (truth test) }
{
    Bits::new(1, u64::from(test))
}
