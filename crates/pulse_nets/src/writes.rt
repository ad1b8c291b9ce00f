//! What several acts do together: the last write of a register, and whether any of several is so.
ghost use Rattle.std.specs.Prelude.{◌≡◌, ℕ, ◌<◌, IfOk, length};
ghost use Rattle.module_nets.specs.Netlist.{Extends, Stands};
ghost use Rattle.module_nets.specs.Shown.{Moment, IsMomentOf, Shows, shown};
ghost use Rattle.module_nets.specs.Bits.{IsBit, Tells, told};
ghost use Rattle.module_nets.specs.Signals.{signal_at};
ghost use Rattle.turn_pulses.specs.Latest.{last_write, some_begin};
ghost use Rattle.pulse_nets.specs.Writes.{begun_told, bits_told, value_shown, write_at, WriteStands};

use anvil_bits::Bits;
use module_nets::{Netlist, Signal};
use std::alloc::AllocError;

/// A write of a register.
#[derive(Clone, Copy)]
pub struct Write {
    /// 1 in the cycles in which the write begins.
    pub begun: Signal,
    /// What it writes.
    pub value: Signal,
}

/// What a register takes at the end of a cycle: the value of the last write that begins, and else what it shows.
pub fn draw_last_write(
    netlist: &mut Netlist,
    register: &Signal,
    writes: &[Write],
) -> Result<Signal, AllocError>
    requires register { Stands netlist.old register.now }
    requires writes { (place : ℕ) → place < length writes.now →
        WriteStands netlist.old register.now.width (write_at writes.now place) }
    ensures extends { IfOk result (λ drawn. Extends netlist.old netlist.new) }
    ensures stands { IfOk result (λ drawn. Stands netlist.new drawn) }
    ensures width { IfOk result (λ drawn. drawn.width ≡ register.now.width) }
    ensures shows { IfOk result (λ drawn. Shows netlist.new drawn (λ now. last_write
        (begun_told now writes.now) (value_shown now writes.now) (shown now register.now) (length writes.now))) }
{
    let mut taken = *register;
    for write in writes {
        taken = netlist.choose(&write.begun, &write.value, &taken)?;
    }
    Ok(taken)
}

/// Whether any of the signals is 1.
pub fn draw_any(netlist: &mut Netlist, bits: &[Signal]) -> Result<Signal, AllocError>
    requires { (place : ℕ) → place < length bits.now → IsBit netlist.old (signal_at bits.now place) }
    ensures extends { IfOk result (λ drawn. Extends netlist.old netlist.new) }
    ensures bit { IfOk result (λ drawn. IsBit netlist.new drawn) }
    ensures tells { IfOk result (λ drawn. Tells netlist.new drawn
        (λ now. some_begin (bits_told now bits.now) (length bits.now) now.cycle)) }
{
    let mut any = Signal::literal(Bits::new(1, 0));
    for bit in bits {
        any = netlist.or(&any, bit)?;
    }
    Ok(any)
}
