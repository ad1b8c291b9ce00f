//! What the acts of threads do together: what a register takes, whether something is offered on a port, and its data.
ghost use Rattle.std.specs.Prelude.{◌≡◌, ℕ, ◌<◌, ◌||◌, IfOk, if◌then◌else◌, length};
ghost use Rattle.module_nets.specs.Netlist.{Extends, Stands};
ghost use Rattle.module_nets.specs.Shown.{Moment, IsMomentOf, Shows, shown};
ghost use Rattle.module_nets.specs.Bits.{IsBit, Tells, told};
ghost use Rattle.machine_parts.specs.Drafts.{data_now, is_on, is_send, is_set, port_offered, written_now};
ghost use Rattle.process_nets.specs.Acts.{DataStand, EachDraft, OffersStand, WritesStand};
ghost use Rattle.process_nets.specs.Acts.{data_by, offered_by, offers_now, sets_now, shows_now, value_now, written_by};

use crate::parts::{bit_of, deed_of, no_bit, pulse_in, value_of};
use machine_parts::{Deed, ThreadDraft};
use module_nets::{Netlist, Signal};
use std::alloc::AllocError;

/// What a register takes: the value of the last act that sets it and begins, and else what it shows.
pub fn draw_written(
    netlist: &mut Netlist,
    drafts: &[ThreadDraft<'_>],
    register: u32,
    shows: &Signal,
) -> Result<Signal, AllocError>
    requires shows { Stands netlist.old shows.now }
    requires writes { EachDraft (WritesStand netlist.old register shows.now.width) drafts.now }
    ensures extends { IfOk result (λ drawn. Extends netlist.old netlist.new) }
    ensures stands { IfOk result (λ drawn. Stands netlist.new drawn) }
    ensures width { IfOk result (λ drawn. drawn.width ≡ shows.now.width) }
    ensures shows { IfOk result (λ drawn. Shows netlist.new drawn
        (λ now. written_now now drafts.now register (shown now shows.now))) }
{
    let mut taken = *shows;
    for draft in drafts {
        taken = draw_writes(netlist, draft, register, &taken)?;
    }
    Ok(taken)
}

/// What a register takes after the acts of one thread.
fn draw_writes(
    netlist: &mut Netlist,
    draft: &ThreadDraft<'_>,
    register: u32,
    before: &Signal,
) -> Result<Signal, AllocError>
    requires before { Stands netlist.old before.now }
    requires writes { WritesStand netlist.old register before.now.width draft.now }
    ensures extends { IfOk result (λ drawn. Extends netlist.old netlist.new) }
    ensures stands { IfOk result (λ drawn. Stands netlist.new drawn) }
    ensures width { IfOk result (λ drawn. drawn.width ≡ before.now.width) }
    ensures shows { IfOk result (λ drawn. Shows netlist.new drawn (λ now.
        written_by now draft.now register (shown now before.now) (length draft.now.plan.now.deeds.items))) }
{
    let mut taken = *before;
    for site in 0..draft.plan.deeds.len() {
        taken = draw_write(netlist, draft, register, site, &taken)?;
    }
    Ok(taken)
}

/// What a register takes after one act more.
fn draw_write(
    netlist: &mut Netlist,
    draft: &ThreadDraft<'_>,
    register: u32,
    site: usize,
    before: &Signal,
) -> Result<Signal, AllocError>
    requires before { Stands netlist.old before.now }
    requires writes { WritesStand netlist.old register before.now.width draft.now }
    requires within { site < length draft.now.plan.now.deeds.items }
    ensures extends { IfOk result (λ drawn. Extends netlist.old netlist.new) }
    ensures stands { IfOk result (λ drawn. Stands netlist.new drawn) }
    ensures width { IfOk result (λ drawn. drawn.width ≡ before.now.width) }
    ensures shows { IfOk result (λ drawn. Shows netlist.new drawn (λ now.
        if sets_now now draft.now register site then value_now now draft.now site else shown now before.now)) }
{
    if sets(deed_of(&draft.plan.deeds, site), register) {
        let begins = pulse_in(&draft.nets.pulses, &draft.plan.begins, site).pulse;
        let value = value_of(&draft.nets.values, site);
        let taken = netlist.choose(&begins, &value, before)?;
        Ok(taken)
    } else {
        Ok(*before)
    }
}

/// Whether an act on the port is offered.
pub fn draw_offered(
    netlist: &mut Netlist,
    drafts: &[ThreadDraft<'_>],
    port: u32,
) -> Result<Signal, AllocError>
    requires offers { EachDraft (OffersStand netlist.old) drafts.now }
    ensures extends { IfOk result (λ drawn. Extends netlist.old netlist.new) }
    ensures bit { IfOk result (λ drawn. IsBit netlist.new drawn) }
    ensures tells { IfOk result (λ drawn. Tells netlist.new drawn (λ now. port_offered now drafts.now port)) }
{
    let mut any = no_bit();
    for draft in drafts {
        any = draw_offers(netlist, draft, port, &any)?;
    }
    Ok(any)
}

/// Whether one is offered of those before, or of the acts of one thread.
fn draw_offers(
    netlist: &mut Netlist,
    draft: &ThreadDraft<'_>,
    port: u32,
    before: &Signal,
) -> Result<Signal, AllocError>
    requires before { IsBit netlist.old before.now }
    requires offers { OffersStand netlist.old draft.now }
    ensures extends { IfOk result (λ drawn. Extends netlist.old netlist.new) }
    ensures bit { IfOk result (λ drawn. IsBit netlist.new drawn) }
    ensures tells { IfOk result (λ drawn. Tells netlist.new drawn (λ now.
        told now before.now || offered_by now draft.now port (length draft.now.plan.now.deeds.items))) }
{
    let mut any = *before;
    for site in 0..draft.plan.deeds.len() {
        any = draw_offer(netlist, draft, port, site, &any)?;
    }
    Ok(any)
}

/// Whether one is offered of those before, or the act of a site.
fn draw_offer(
    netlist: &mut Netlist,
    draft: &ThreadDraft<'_>,
    port: u32,
    site: usize,
    before: &Signal,
) -> Result<Signal, AllocError>
    requires before { IsBit netlist.old before.now }
    requires offers { OffersStand netlist.old draft.now }
    requires within { site < length draft.now.plan.now.deeds.items }
    ensures extends { IfOk result (λ drawn. Extends netlist.old netlist.new) }
    ensures bit { IfOk result (λ drawn. IsBit netlist.new drawn) }
    ensures tells { IfOk result (λ drawn. Tells netlist.new drawn (λ now.
        told now before.now || offers_now now draft.now port site)) }
{
    if acts_on(deed_of(&draft.plan.deeds, site), port) {
        let offered = pulse_in(&draft.nets.pulses, &draft.plan.ends, site).known;
        let any = netlist.or(before, &offered)?;
        Ok(any)
    } else {
        Ok(*before)
    }
}

/// The data of a port: the value of the first `send` that began last of its port, over the threads and their sites, and else what
/// `none` shows. They are drawn from the last to the first.
pub fn draw_data(
    netlist: &mut Netlist,
    drafts: &[ThreadDraft<'_>],
    port: u32,
    none: &Signal,
) -> Result<Signal, AllocError>
    requires none { Stands netlist.old none.now }
    requires zero { (now : Moment) → shown now none.now ≡ 0 }
    requires sends { EachDraft (DataStand netlist.old port none.now.width) drafts.now }
    ensures extends { IfOk result (λ drawn. Extends netlist.old netlist.new) }
    ensures stands { IfOk result (λ drawn. Stands netlist.new drawn) }
    ensures width { IfOk result (λ drawn. drawn.width ≡ none.now.width) }
    ensures shows { IfOk result (λ drawn. Shows netlist.new drawn (λ now. data_now now drafts.now port)) }
{
    let mut sent = *none;
    let mut thread = drafts.len();
    while thread > 0 {
        thread -= 1;
        sent = draw_sends(netlist, &drafts[thread], port, &sent)?;
    }
    Ok(sent)
}

/// The data of a port over one thread more.
fn draw_sends(
    netlist: &mut Netlist,
    draft: &ThreadDraft<'_>,
    port: u32,
    after: &Signal,
) -> Result<Signal, AllocError>
    requires after { Stands netlist.old after.now }
    requires sends { DataStand netlist.old port after.now.width draft.now }
    ensures extends { IfOk result (λ drawn. Extends netlist.old netlist.new) }
    ensures stands { IfOk result (λ drawn. Stands netlist.new drawn) }
    ensures width { IfOk result (λ drawn. drawn.width ≡ after.now.width) }
    ensures shows { IfOk result (λ drawn. Shows netlist.new drawn (λ now.
        data_by now draft.now port (shown now after.now) 0 (length draft.now.plan.now.deeds.items))) }
{
    let mut sent = *after;
    let mut site = draft.plan.deeds.len();
    while site > 0 {
        site -= 1;
        sent = draw_send(netlist, draft, port, site, &sent)?;
    }
    Ok(sent)
}

/// The data of a port over one act more.
fn draw_send(
    netlist: &mut Netlist,
    draft: &ThreadDraft<'_>,
    port: u32,
    site: usize,
    after: &Signal,
) -> Result<Signal, AllocError>
    requires after { Stands netlist.old after.now }
    requires sends { DataStand netlist.old port after.now.width draft.now }
    ensures extends { IfOk result (λ drawn. Extends netlist.old netlist.new) }
    ensures stands { IfOk result (λ drawn. Stands netlist.new drawn) }
    ensures width { IfOk result (λ drawn. drawn.width ≡ after.now.width) }
    ensures shows { IfOk result (λ drawn. Shows netlist.new drawn (λ now.
        if shows_now now draft.now port site then value_now now draft.now site else shown now after.now)) }
{
    if sends(deed_of(&draft.plan.deeds, site), port) {
        let newest = bit_of(&draft.newest, site);
        let value = value_of(&draft.nets.values, site);
        let sent = netlist.choose(&newest, &value, after)?;
        Ok(sent)
    } else {
        Ok(*after)
    }
}

/// Whether an act sets the register.
fn sets(deed: Deed, register: u32) -> bool
    ensures { result ≡ is_set register deed }
{
    match deed {
        Deed::Sets(other) => other == register,
        _ => false,
    }
}

/// Whether an act sends on the port.
fn sends(deed: Deed, port: u32) -> bool
    ensures { result ≡ is_send port deed }
{
    match deed {
        Deed::Sends(other) => other == port,
        _ => false,
    }
}

/// Whether an act sends or receives on the port.
fn acts_on(deed: Deed, port: u32) -> bool
    ensures { result ≡ is_on port deed }
{
    match deed {
        Deed::Sends(other) | Deed::Receives(other) => other == port,
        _ => false,
    }
}
