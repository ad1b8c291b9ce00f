//! The pulse of one node.
ghost use Rattle.std.specs.Prelude.{◌≡◌, ◌==◌, ◌&&◌, ◌||◌, IfOk, not};
ghost use Rattle.module_nets.specs.Netlist.{Extends, Stands};
ghost use Rattle.module_nets.specs.Shown.{Moment, IsMomentOf, shown};
ghost use Rattle.module_nets.specs.Bits.{IsBit, Tells, told};
ghost use Rattle.pulse_nets.specs.Pulses.{begins, form_of, ArePredecessorsDrawn, IsKnown, IsPulse, PartStands};

use crate::node::{Part, Shape};
use anvil_bits::Bits;
use module_nets::{Netlist, Signal};
use std::alloc::AllocError;

/// The pulse of a node, and what is known of it before its event comes: that a `Sync` is offered, or that one of the two ends of
/// a `Join` has come in an earlier cycle. Of other nodes it is the pulse.
#[derive(Clone, Copy)]
pub struct Pulse {
    /// 1 in the cycles in which the node occurs.
    pub pulse: Signal,
    /// What is known before.
    pub known: Signal,
}

/// The pulse of a node, over those of earlier nodes; `begin` is 1 in the cycles in which a turn begins. It takes at most four nets, those
/// of a `Join`, and two where the join forgets.
pub fn draw_pulse(
    netlist: &mut Netlist,
    part: &Part,
    before: &[Pulse],
    begin: &Signal,
) -> Result<Pulse, AllocError>
    requires before { ArePredecessorsDrawn netlist.old before.now (form_of part.now.shape) }
    requires part { PartStands netlist.old part.now.state part.now.event (form_of part.now.shape) }
    requires begin { IsBit netlist.old begin.now }
    ensures extends { IfOk result (λ drawn. Extends netlist.old netlist.new) }
    ensures bit { IfOk result (λ drawn. IsBit netlist.new drawn.pulse) }
    ensures known { IfOk result (λ drawn. IsBit netlist.new drawn.known) }
    ensures tells { IfOk result (IsPulse netlist.new before.now (begins begin.now) part.now) }
    ensures knows { IfOk result (IsKnown netlist.new before.now (begins begin.now) part.now) }
{
    match part.shape {
        Shape::Start => Ok(plain(begin)),
        Shape::Same(from) => Ok(plain(&before[from as usize].pulse)),
        Shape::After(_, _) => draw_delay(netlist, &part.state),
        Shape::Sync(from) => draw_sync(
            netlist,
            &before[from as usize].pulse,
            &part.state,
            &part.event,
        ),
        Shape::Join(first, second) => {
            let one_came = draw_one_came(netlist, part, begin)?;
            draw_join(
                netlist,
                &before[first as usize].pulse,
                &before[second as usize].pulse,
                &one_came,
            )
        }
        Shape::Side(from) => {
            let pulse = netlist.and(&before[from as usize].pulse, &part.event)?;
            Ok(plain(&pulse))
        }
        Shape::Merge(first, second) => {
            let pulse = netlist.or(
                &before[first as usize].pulse,
                &before[second as usize].pulse,
            )?;
            Ok(plain(&pulse))
        }
    }
}

/// A `Sync`: it is offered from its begin on, and comes with its wire.
fn draw_sync(
    netlist: &mut Netlist,
    from: &Signal,
    pending: &Signal,
    wire: &Signal,
) -> Result<Pulse, AllocError>
    requires from { IsBit netlist.old from.now }
    requires pending { IsBit netlist.old pending.now }
    requires wire { IsBit netlist.old wire.now }
    ensures extends { IfOk result (λ drawn. Extends netlist.old netlist.new) }
    ensures bit { IfOk result (λ drawn. IsBit netlist.new drawn.pulse) }
    ensures known { IfOk result (λ drawn. IsBit netlist.new drawn.known) }
    ensures knows { IfOk result (λ drawn. Tells netlist.new drawn.known
        (λ now. told now from.now || told now pending.now)) }
    ensures tells { IfOk result (λ drawn. Tells netlist.new drawn.pulse
        (λ now. (told now from.now || told now pending.now) && told now wire.now)) }
{
    let known = netlist.or(from, pending)?;
    let pulse = netlist.and(&known, wire)?;
    Ok(Pulse { pulse, known })
}

/// A `Join`: it comes with the later of its two ends. `one_came` is that one of them came in an earlier cycle.
fn draw_join(
    netlist: &mut Netlist,
    first: &Signal,
    second: &Signal,
    one_came: &Signal,
) -> Result<Pulse, AllocError>
    requires first { IsBit netlist.old first.now }
    requires second { IsBit netlist.old second.now }
    requires one_came { IsBit netlist.old one_came.now }
    ensures extends { IfOk result (λ drawn. Extends netlist.old netlist.new) }
    ensures bit { IfOk result (λ drawn. IsBit netlist.new drawn.pulse) }
    ensures known { IfOk result (λ drawn. IsBit netlist.new drawn.known) }
    ensures knows { IfOk result (λ drawn. Tells netlist.new drawn.known (λ now. told now one_came.now)) }
    ensures tells { IfOk result (λ drawn. Tells netlist.new drawn.pulse (λ now.
        (told now first.now && told now second.now)
        || (told now one_came.now && (told now first.now || told now second.now)))) }
{
    let both = netlist.and(first, second)?;
    let either = netlist.or(first, second)?;
    let late = netlist.and(one_came, &either)?;
    let pulse = netlist.or(&both, &late)?;
    Ok(Pulse {
        pulse,
        known: *one_came,
    })
}

/// An `After`: it comes with the last cycle that its counter counts.
fn draw_delay(netlist: &mut Netlist, counter: &Signal) -> Result<Pulse, AllocError>
    requires { Stands netlist.old counter.now }
    ensures extends { IfOk result (λ drawn. Extends netlist.old netlist.new) }
    ensures bit { IfOk result (λ drawn. IsBit netlist.new drawn.pulse) }
    ensures known { IfOk result (λ drawn. IsBit netlist.new drawn.known) }
    ensures tells { IfOk result (λ drawn. Tells netlist.new drawn.pulse (λ now. shown now counter.now == 1)) }
{
    let pulse = netlist.equals(counter, Bits::new(counter.width, 1))?;
    Ok(plain(&pulse))
}

/// That one end of a `Join` came in an earlier cycle and is not forgotten.
fn draw_one_came(netlist: &mut Netlist, part: &Part, begin: &Signal) -> Result<Signal, AllocError>
    requires part { IsBit netlist.old part.now.state }
    requires begin { IsBit netlist.old begin.now }
    ensures extends { IfOk result (λ drawn. Extends netlist.old netlist.new) }
    ensures bit { IfOk result (λ drawn. IsBit netlist.new drawn) }
    ensures tells { IfOk result (λ drawn. Tells netlist.new drawn
        (λ now. told now part.now.state && not (part.now.forgets && told now begin.now))) }
{
    if part.forgets {
        let goes_on = netlist.invert(begin)?;
        netlist.and(&part.state, &goes_on)
    } else {
        Ok(part.state)
    }
}

/// A pulse that is all that is known.
fn plain(pulse: &Signal) -> Pulse
    ensures { result ≡ record { pulse = pulse.now; known = pulse.now } }
{
    Pulse {
        pulse: *pulse,
        known: *pulse,
    }
}
