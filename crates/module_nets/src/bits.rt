//! Operators over signals of one bit.
ghost use Rattle.std.specs.Prelude.{◌≡◌, ◌==◌, ◌&&◌, ◌||◌, IfOk, not};
ghost use Rattle.module_nets.specs.Netlist.{Extends, Stands};
ghost use Rattle.module_nets.specs.Shown.{Moment, IsMomentOf, shown};
ghost use Rattle.module_nets.specs.Bits.{IsBit, Tells, told, xor};

use crate::netlist::Netlist;
use crate::signal::Signal;
use anvil_bits::Bits;
use core_term::BinOp;
use std::alloc::AllocError;

impl Netlist {
    /// 1 where both are 1.
    pub fn and(&mut self, left: &Signal, right: &Signal) -> Result<Signal, AllocError>
        requires left { IsBit self.old left.now }
        requires right { IsBit self.old right.now }
        ensures extends { IfOk result (λ drawn. Extends self.old self.new) }
        ensures bit { IfOk result (λ drawn. IsBit self.new drawn) }
        ensures tells { IfOk result (λ drawn. Tells self.new drawn (λ now. told now left.now && told now right.now)) }
    {
        self.bin(BinOp::And, left, right)
    }

    /// 1 where one of the two is 1, or both are.
    pub fn or(&mut self, left: &Signal, right: &Signal) -> Result<Signal, AllocError>
        requires left { IsBit self.old left.now }
        requires right { IsBit self.old right.now }
        ensures extends { IfOk result (λ drawn. Extends self.old self.new) }
        ensures bit { IfOk result (λ drawn. IsBit self.new drawn) }
        ensures tells { IfOk result (λ drawn. Tells self.new drawn (λ now. told now left.now || told now right.now)) }
    {
        self.bin(BinOp::Or, left, right)
    }

    /// 1 where the two differ.
    pub fn xor(&mut self, left: &Signal, right: &Signal) -> Result<Signal, AllocError>
        requires left { IsBit self.old left.now }
        requires right { IsBit self.old right.now }
        ensures extends { IfOk result (λ drawn. Extends self.old self.new) }
        ensures bit { IfOk result (λ drawn. IsBit self.new drawn) }
        ensures tells { IfOk result (λ drawn. Tells self.new drawn
            (λ now. xor (told now left.now) (told now right.now))) }
    {
        self.bin(BinOp::Xor, left, right)
    }

    /// 1 where this is 0.
    pub fn invert(&mut self, operand: &Signal) -> Result<Signal, AllocError>
        requires { IsBit self.old operand.now }
        ensures extends { IfOk result (λ drawn. Extends self.old self.new) }
        ensures bit { IfOk result (λ drawn. IsBit self.new drawn) }
        ensures tells { IfOk result (λ drawn. Tells self.new drawn (λ now. not (told now operand.now))) }
    {
        self.not(operand)
    }

    /// 1 where the signal shows this number.
    pub fn equals(&mut self, signal: &Signal, number: Bits) -> Result<Signal, AllocError>
        requires stands { Stands self.old signal.now }
        requires width { number.width ≡ signal.now.width }
        ensures extends { IfOk result (λ drawn. Extends self.old self.new) }
        ensures bit { IfOk result (λ drawn. IsBit self.new drawn) }
        ensures tells { IfOk result (λ drawn. Tells self.new drawn (λ now. shown now signal.now == number.value)) }
    {
        self.bin(BinOp::Eq, signal, &Signal::literal(number))
    }
}
