//! The parts of an emitted module. Numbers (`u32`) count from 0 in the module's lists of ports, registers and nets, and
//! widths are in bits.

use anvil_bits::Bits;
use anvil_lexer::Name;
use core_term::BinOp;

/// A message port. It has three wires: `data` of `width` bits, `valid` and `ack` of one. Where it is `received`, `data` and
/// `valid` come in and `ack` goes out; where it is sent, the other way round.
#[derive(Drop)]
pub struct SvPort {
    pub endpoint: Name,
    pub message: Name,
    pub received: bool,
    pub width: u8,
}

/// The name of a register: one of the source, written `NAME__q`, or a state of the compiler's own, written `s__K`.
#[derive(Drop)]
pub enum SvRegName {
    Source(Name),
    State(u32),
}

/// A register with its value in cycle 0.
#[derive(Drop)]
pub struct SvReg {
    pub name: SvRegName,
    pub width: u8,
    pub reset: Bits,
}

/// What an operand can name: a wire of the port of a number, a register or a net. `Data` and `Valid` are those of a received
/// port, and `Ack` that of a sent one.
#[derive(Clone, Copy, Debug, PartialEq, Eq)]
pub enum SvRef {
    Data(u32),
    Valid(u32),
    Ack(u32),
    Reg(u32),
    Net(u32),
}

/// An operand of an operator, an output or a register: a name or a literal.
#[derive(Clone, Copy, Debug, PartialEq, Eq)]
pub enum SvOperand {
    Ref(SvRef),
    Lit(Bits),
}

/// An operator over operands. `Slice` takes the bits from `high` down to `low`. `Choose` gives its second operand where the
/// first is 1, and else its third.
#[derive(Clone, Copy, Debug, PartialEq, Eq)]
pub enum SvOp {
    Not(SvOperand),
    Bin(BinOp, SvOperand, SvOperand),
    Slice { of: SvRef, high: u8, low: u8 },
    Choose(SvOperand, SvOperand, SvOperand),
}

/// A net: a wire of the module's own, given by an operator over earlier nets.
#[derive(Clone, Copy, Debug, PartialEq, Eq)]
pub struct SvNet {
    pub width: u8,
    pub op: SvOp,
}

/// What the outgoing wires of a port are given.
#[derive(Clone, Copy, Debug, PartialEq, Eq)]
pub enum SvOut {
    Received { ack: SvOperand },
    Sent { value: SvOperand, valid: SvOperand },
}
