//! The tables of the lives of what a thread sends, under the sites of the acts that send.
ghost use Rattle.std.specs.Prelude.{◌≡◌, ◌<◌, ◌^◌, ◌+◌, ℕ, IfOk, None};
ghost use Rattle.core_term.specs.AcceptedFile.{process_in};
ghost use Rattle.core_term.specs.Numbering.{size};
ghost use Rattle.core_term.specs.View.{term_of};
ghost use Rattle.core_term.specs.Widths.{Widths};
ghost use Rattle.demand_checks.specs.Deeds.{deed_at};
ghost use Rattle.demand_checks.specs.Thread.{AreLastsOf};
ghost use Rattle.elaborator.specs.Turns.{IsTwice};
ghost use Rattle.event_graph.specs.Forms.{delays};
ghost use Rattle.event_order.specs.Order.{IsOrderOf};
ghost use Rattle.life_tables.specs.Lives.{AreLastsTo, HasLife, IsSetting, body_in};
ghost use Rattle.lifetimes.specs.Lasts.{table_of};

use crate::ends::port_ends;
use bumpalo::Bump;
use core_term::{CoreProc, CoreThread};
use demand_checks::{Deed, deeds_of};
use elaborator::Elab;
use event_order::Order;
use lifetimes::{Lasts, Life};
use std::alloc::{AllocError, Global};

/// A thread of a process with the graph of its two turns and the order of the graph, and where its lives lie.
#[derive(Drop)]
pub struct Setting<'a> {
    pub arena: &'a Bump,
    pub proc: &'a CoreProc,
    pub thread: &'a CoreThread,
    pub elab: &'a Elab<'a>,
    pub order: &'a Order,
}

/// The tables of the lives of all that a thread sends. The lives lie in the arena.
///
/// Refuses only where memory is refused.
pub fn lasts_of<'a>(
    alloc: Global,
    arena: &'a Bump,
    proc: &'a CoreProc,
    thread: &'a CoreThread,
    elab: &'a Elab<'a>,
    order: &'a Order,
) -> Result<Lasts, AllocError>
    requires twice { (widths : Widths) → IsTwice (term_of widths thread.now) elab.now }
    requires order { IsOrderOf elab.now.graph order.now }
    requires short { delays elab.now.graph < 2 ^ 30 }
    ensures { IfOk result (λ lasts. (widths : Widths) →
        AreLastsOf (process_in proc.now) (term_of widths thread.now) lasts) }
{
    let setting = Setting {
        arena,
        proc,
        thread,
        elab,
        order,
    };
    let deeds = deeds_of(alloc, thread)?;
    let mut lasts = Lasts::new(alloc);
    for site in 0..thread.count() {
        add_act(alloc, &setting, site, deeds[site as usize], &mut lasts)?;
    }
    Ok(lasts)
}

/// Adds the table of an act, where it sends.
fn add_act(
    alloc: Global,
    setting: &Setting<'_>,
    site: u32,
    deed: Deed,
    lasts: &mut Lasts,
) -> Result<(), AllocError>
    requires setting { IsSetting setting.now }
    requires inside { (widths : Widths) → site < size (body_in widths setting.now) }
    requires free { table_of lasts.old site ≡ None }
    ensures added { IfOk result (λ _. (widths : Widths) (port : ℕ) → deed ≡ Deed.Sends port →
        HasLife (process_in setting.now.proc.now) (body_in widths setting.now) lasts.new site port) }
    ensures others { IfOk result (λ _. (other : ℕ) → (other ≡ site → ⊥) →
        table_of lasts.new other ≡ table_of lasts.old other) }
{
    if let Deed::Sends(port) = deed {
        add_life(alloc, setting, site, port, lasts)?;
    }
    Ok(())
}

/// Adds the table of the life of what an act sends on a port.
fn add_life(
    alloc: Global,
    setting: &Setting<'_>,
    site: u32,
    port: u32,
    lasts: &mut Lasts,
) -> Result<(), AllocError>
    requires setting { IsSetting setting.now }
    requires inside { (widths : Widths) → site < size (body_in widths setting.now) }
    requires free { table_of lasts.old site ≡ None }
    ensures added { IfOk result (λ _. (widths : Widths) →
        HasLife (process_in setting.now.proc.now) (body_in widths setting.now) lasts.new site port) }
    ensures others { IfOk result (λ _. (other : ℕ) → (other ≡ site → ⊥) →
        table_of lasts.new other ≡ table_of lasts.old other) }
{
    let ends = port_ends(
        alloc,
        setting.arena,
        setting.proc,
        port,
        setting.thread,
        setting.elab,
    )?;
    let from = setting.elab.points(1, site).end;
    lasts.add(
        site,
        &setting.elab.graph,
        setting.order,
        &Life { from, ends },
    )?;
    Ok(())
}
