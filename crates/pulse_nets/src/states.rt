//! What the bit or counter of a node takes at the end of a cycle.
ghost use Rattle.std.specs.Prelude.{◌≡◌, ◌-◌, ◌^◌, ◌<◌, ◌&&◌, IfOk, if◌then◌else◌, not};
ghost use Rattle.module_nets.specs.Netlist.{Extends, Stands};
ghost use Rattle.module_nets.specs.Shown.{Moment, IsMomentOf, Shows, shown};
ghost use Rattle.module_nets.specs.Bits.{IsBit, Tells, told, xor};
ghost use Rattle.pulse_nets.specs.Pulses.{form_of};
ghost use Rattle.pulse_nets.specs.NextStates.{NeedsNext, IsNext};

use crate::forms::Pulse;
use crate::node::{Part, Shape};
use anvil_bits::Bits;
use core_term::BinOp;
use module_nets::{Netlist, Signal};
use std::alloc::AllocError;

/// What the bit of a `Sync` or a `Join`, or the counter of an `After`, takes at the end of a cycle.
pub fn draw_next(
    netlist: &mut Netlist,
    part: &Part,
    pulse: &Pulse,
    pulses: &[Pulse],
) -> Result<Signal, AllocError>
    requires { NeedsNext netlist.old pulses.now part.now pulse.now (form_of part.now.shape) }
    ensures extends { IfOk result (λ drawn. Extends netlist.old netlist.new) }
    ensures stands { IfOk result (λ drawn. Stands netlist.new drawn) }
    ensures width { IfOk result (λ drawn. drawn.width ≡ part.now.state.width) }
    ensures next { IfOk result (λ drawn.
        IsNext netlist.new pulses.now part.now pulse.now drawn (form_of part.now.shape)) }
{
    match part.shape {
        Shape::Sync(_) => draw_pending(netlist, part, pulse),
        Shape::Join(first, second) => draw_one_has_come(
            netlist,
            pulse,
            &pulses[first as usize],
            &pulses[second as usize],
        ),
        Shape::After(cycles, from) => draw_counter(netlist, part, &pulses[from as usize], cycles),
        Shape::Start | Shape::Same(_) | Shape::Side(_) | Shape::Merge(_, _) => unreachable!(),
    }
}

/// The bit of a `Sync`: it stays offered where its wire does not come.
fn draw_pending(netlist: &mut Netlist, sync: &Part, pulse: &Pulse) -> Result<Signal, AllocError>
    requires offered { IsBit netlist.old pulse.now.known }
    requires wire { IsBit netlist.old sync.now.event }
    ensures extends { IfOk result (λ drawn. Extends netlist.old netlist.new) }
    ensures bit { IfOk result (λ drawn. IsBit netlist.new drawn) }
    ensures tells { IfOk result (λ drawn. Tells netlist.new drawn
        (λ now. told now pulse.now.known && not (told now sync.now.event))) }
{
    let silent = netlist.invert(&sync.event)?;
    let pending = netlist.and(&pulse.known, &silent)?;
    Ok(pending)
}

/// The bit of a `Join`: exactly one of its two ends has come.
fn draw_one_has_come(
    netlist: &mut Netlist,
    pulse: &Pulse,
    first: &Pulse,
    second: &Pulse,
) -> Result<Signal, AllocError>
    requires one_came { IsBit netlist.old pulse.now.known }
    requires first { IsBit netlist.old first.now.pulse }
    requires second { IsBit netlist.old second.now.pulse }
    ensures extends { IfOk result (λ drawn. Extends netlist.old netlist.new) }
    ensures bit { IfOk result (λ drawn. IsBit netlist.new drawn) }
    ensures tells { IfOk result (λ drawn. Tells netlist.new drawn
        (λ now. xor (told now pulse.now.known) (xor (told now first.now.pulse) (told now second.now.pulse)))) }
{
    let one_comes = netlist.xor(&first.pulse, &second.pulse)?;
    let one_has_come = netlist.xor(&pulse.known, &one_comes)?;
    Ok(one_has_come)
}

/// The counter of an `After`: it is loaded by the pulse before it, and else counts down to 0.
fn draw_counter(
    netlist: &mut Netlist,
    delay: &Part,
    load: &Pulse,
    cycles: u32,
) -> Result<Signal, AllocError>
    requires counter { Stands netlist.old delay.now.state }
    requires load { IsBit netlist.old load.now.pulse }
    requires fits { cycles < 2 ^ delay.now.state.width }
    ensures extends { IfOk result (λ drawn. Extends netlist.old netlist.new) }
    ensures stands { IfOk result (λ drawn. Stands netlist.new drawn) }
    ensures width { IfOk result (λ drawn. drawn.width ≡ delay.now.state.width) }
    ensures shows { IfOk result (λ drawn. Shows netlist.new drawn
        (λ now. if told now load.now.pulse then cycles else (shown now delay.now.state - 1))) }
{
    let less = draw_less(netlist, &delay.state)?;
    let all = Signal::literal(Bits::new(delay.state.width, u64::from(cycles)));
    let counter = netlist.choose(&load.pulse, &all, &less)?;
    Ok(counter)
}

/// One less than a counter shows, down to 0.
fn draw_less(netlist: &mut Netlist, counter: &Signal) -> Result<Signal, AllocError>
    requires { Stands netlist.old counter.now }
    ensures extends { IfOk result (λ drawn. Extends netlist.old netlist.new) }
    ensures stands { IfOk result (λ drawn. Stands netlist.new drawn) }
    ensures width { IfOk result (λ drawn. drawn.width ≡ counter.now.width) }
    ensures shows { IfOk result (λ drawn. Shows netlist.new drawn (λ now. shown now counter.now - 1)) }
{
    let zero = Signal::literal(Bits::new(counter.width, 0));
    let one = Signal::literal(Bits::new(counter.width, 1));
    let some = netlist.bin(BinOp::Ne, counter, &zero)?;
    let less = netlist.bin(BinOp::Sub, counter, &one)?;
    let down = netlist.choose(&some, &less, &zero)?;
    Ok(down)
}
