//! Of each `send` of a thread whether it began last of its port.
ghost use Rattle.std.specs.Prelude.{◌≡◌, ℕ, ◌<◌, ◌+◌, ◌&&◌, IfOk, if◌then◌else◌, length, not};
ghost use Rattle.module_nets.specs.Netlist.{Extends};
ghost use Rattle.module_nets.specs.Shown.{Moment, IsMomentOf};
ghost use Rattle.module_nets.specs.Bits.{IsBit, Tells, told};
ghost use Rattle.machine_parts.specs.Nodes.{AreBits};
ghost use Rattle.machine_parts.specs.Parts.{bit_at};
ghost use Rattle.machine_parts.specs.Drafts.{NewestDrawn};
ghost use Rattle.process_nets.specs.Newest.{AnyDrawn, BeginsStand, EarlierDrawn, EarliersDrawn, SendsWithin};
ghost use Rattle.process_nets.specs.Newest.{SiteNewest, SitesNewest};

use crate::parts::{bit_of, deed_of, no_bit, no_bits, pulse_in};
use machine_parts::{Deed, TurnPlan};
use module_nets::{Netlist, Signal};
use pulse_nets::Pulse;
use std::alloc::{AllocError, Global};

/// What is drawn of the sends of a thread before it is known which of them began last.
#[derive(Drop)]
struct Begun {
    /// Of each port whether one of its sends begins.
    any: Vec<Signal>,
    /// Of each send whether an earlier one of its port begins, by its site.
    earlier: Vec<Signal>,
}

/// Of each `send` of a thread whether it began last of its port, by its site: where one of them begins, the first that does, and
/// else what was kept. Other acts have a bit that is never 1.
///
/// It takes four nets a `send`. Refuses only where memory is refused.
pub fn draw_newest(
    alloc: Global,
    netlist: &mut Netlist,
    plan: &TurnPlan,
    kept: &[Signal],
    pulses: &[Pulse],
    ports: u32,
) -> Result<Vec<Signal>, AllocError>
    requires begins { BeginsStand netlist.old plan.now pulses.now }
    requires kept { AreBits netlist.old kept.now }
    requires sends { SendsWithin plan.now ports }
    ensures extends { IfOk result (λ newest. Extends netlist.old netlist.new) }
    ensures drawn { IfOk result (λ newest. NewestDrawn netlist.new plan.now kept.now pulses.now newest.items) }
{
    let begun = draw_begun(alloc, netlist, plan, pulses, ports)?;
    let mut newest = Vec::new(alloc);
    for site in 0..plan.deeds.len() {
        let last = draw_last(netlist, plan, kept, pulses, &begun, site)?;
        newest.push(last)?;
    }
    Ok(newest)
}

/// Of each port whether one of its sends begins, and of each send whether an earlier one of its port does.
fn draw_begun(
    alloc: Global,
    netlist: &mut Netlist,
    plan: &TurnPlan,
    pulses: &[Pulse],
    ports: u32,
) -> Result<Begun, AllocError>
    requires begins { BeginsStand netlist.old plan.now pulses.now }
    requires sends { SendsWithin plan.now ports }
    ensures extends { IfOk result (λ begun. Extends netlist.old netlist.new) }
    ensures any { IfOk result (λ begun.
        AnyDrawn netlist.new plan.now pulses.now ports (length plan.now.deeds.items) begun.any.items) }
    ensures earlier { IfOk result (λ begun.
        EarliersDrawn netlist.new plan.now pulses.now begun.earlier.items (length plan.now.deeds.items)) }
{
    let mut any = no_bits(alloc, ports)?;
    let mut earlier = Vec::new(alloc);
    for site in 0..plan.deeds.len() {
        let before = draw_earlier(netlist, plan, pulses, site, &mut any)?;
        earlier.push(before)?;
    }
    Ok(Begun { any, earlier })
}

/// Whether a send before this one begins on its port. After it this one counts too.
fn draw_earlier(
    netlist: &mut Netlist,
    plan: &TurnPlan,
    pulses: &[Pulse],
    site: usize,
    any: &mut Vec<Signal>,
) -> Result<Signal, AllocError>
    requires begins { BeginsStand netlist.old plan.now pulses.now }
    requires sends { SendsWithin plan.now (length any.old.items) }
    requires within { site < length plan.now.deeds.items }
    requires any { AnyDrawn netlist.old plan.now pulses.now (length any.old.items) site any.old.items }
    ensures extends { IfOk result (λ earlier. Extends netlist.old netlist.new) }
    ensures any { IfOk result (λ earlier.
        AnyDrawn netlist.new plan.now pulses.now (length any.old.items) (site + 1) any.new.items) }
    ensures earlier { IfOk result (EarlierDrawn netlist.new plan.now pulses.now site) }
{
    match deed_of(&plan.deeds, site) {
        Deed::Sends(port) => {
            let before = bit_of(any, port as usize);
            let begins = pulse_in(pulses, &plan.begins, site).pulse;
            let after = netlist.or(&before, &begins)?;
            any[port as usize] = after;
            Ok(before)
        }
        _ => Ok(no_bit()),
    }
}

/// Whether an act began last of its port.
fn draw_last(
    netlist: &mut Netlist,
    plan: &TurnPlan,
    kept: &[Signal],
    pulses: &[Pulse],
    begun: &Begun,
    site: usize,
) -> Result<Signal, AllocError>
    requires begins { BeginsStand netlist.old plan.now pulses.now }
    requires kept { AreBits netlist.old kept.now }
    requires sends { SendsWithin plan.now (length begun.now.any.items) }
    requires within { site < length plan.now.deeds.items }
    requires any { AnyDrawn netlist.old plan.now pulses.now (length begun.now.any.items)
        (length plan.now.deeds.items) begun.now.any.items }
    requires earlier { EarlierDrawn netlist.old plan.now pulses.now site (bit_at begun.now.earlier.items site) }
    ensures extends { IfOk result (λ newest. Extends netlist.old netlist.new) }
    ensures newest { IfOk result (SiteNewest netlist.new plan.now kept.now pulses.now site) }
{
    match deed_of(&plan.deeds, site) {
        Deed::Sends(port) => {
            let begins = pulse_in(pulses, &plan.begins, site).pulse;
            let first = draw_first(netlist, &begins, &bit_of(&begun.earlier, site))?;
            let any = bit_of(&begun.any, port as usize);
            let last = draw_bit(netlist, &any, &first, &bit_of(kept, site))?;
            Ok(last)
        }
        _ => Ok(no_bit()),
    }
}

/// A send begins, and none before it.
fn draw_first(
    netlist: &mut Netlist,
    begins: &Signal,
    earlier: &Signal,
) -> Result<Signal, AllocError>
    requires begins { IsBit netlist.old begins.now }
    requires earlier { IsBit netlist.old earlier.now }
    ensures extends { IfOk result (λ drawn. Extends netlist.old netlist.new) }
    ensures bit { IfOk result (λ drawn. IsBit netlist.new drawn) }
    ensures tells { IfOk result (λ drawn. Tells netlist.new drawn
        (λ now. told now begins.now && not (told now earlier.now))) }
{
    let none = netlist.invert(earlier)?;
    let first = netlist.and(begins, &none)?;
    Ok(first)
}

/// One of two bits.
fn draw_bit(
    netlist: &mut Netlist,
    condition: &Signal,
    first: &Signal,
    second: &Signal,
) -> Result<Signal, AllocError>
    requires condition { IsBit netlist.old condition.now }
    requires first { IsBit netlist.old first.now }
    requires second { IsBit netlist.old second.now }
    ensures extends { IfOk result (λ drawn. Extends netlist.old netlist.new) }
    ensures bit { IfOk result (λ drawn. IsBit netlist.new drawn) }
    ensures tells { IfOk result (λ drawn. Tells netlist.new drawn
        (λ now. if told now condition.now then told now first.now else told now second.now)) }
{
    let bit = netlist.choose(condition, first, second)?;
    Ok(bit)
}
