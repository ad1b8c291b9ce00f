//! The ends of the life of a port, over the graph of two turns of a thread.
ghost use Rattle.std.specs.Prelude.{◌≡◌, ◌<◌, ◌∷◌, [], length, IfOk};
ghost use Rattle.core_term.specs.AcceptedFile.{process_in};
ghost use Rattle.core_term.specs.Numbering.{size};
ghost use Rattle.core_term.specs.Process.{Until, life_of};
ghost use Rattle.core_term.specs.ProcessView.{end_of_life};
ghost use Rattle.core_term.specs.View.{term_of};
ghost use Rattle.core_term.specs.Widths.{Widths};
ghost use Rattle.elaborator.specs.Turns.{IsTwice};
ghost use Rattle.event_points.specs.Endings.{endings};
ghost use Rattle.event_points.specs.Nodes.{node_of};
ghost use Rattle.life_tables.specs.Ends.{AddsActs, AddsEnd};
ghost use Rattle.life_tables.specs.Sites.{AreSites};
ghost use Rattle.lifetimes.specs.Ends.{endings_of};

use crate::sites::port_sites;
use bumpalo::Bump;
use bumpalo::collections::into_bump_slice;
use core_term::{CoreLife, CoreProc, CoreThread};
use elaborator::Elab;
use lifetimes::End;
use std::alloc::{AllocError, Global};

/// The ends of the life of a port, in the arena. A number that is no port has a life without ends.
///
/// Refuses only where memory is refused.
pub fn port_ends<'a>(
    alloc: Global,
    arena: &'a Bump,
    proc: &CoreProc,
    port: u32,
    thread: &CoreThread,
    elab: &Elab<'_>,
) -> Result<&'a [End], AllocError>
    requires { (widths : Widths) → IsTwice (term_of widths thread.now) elab.now }
    ensures { IfOk result (λ ends. (widths : Widths) → endings_of ends.now ≡
        endings (term_of widths thread.now) (node_of (term_of widths thread.now))
        (life_of (process_in proc.now) port)) }
{
    if port as usize >= proc.ports.len() {
        return Ok(&[]);
    }
    let mut ends = Vec::new(arena);
    for index in 0..proc.end_count(port) {
        add_end(alloc, proc.end(port, index), thread, elab, &mut ends)?;
    }
    Ok(into_bump_slice(ends))
}

/// Adds one end of a life.
fn add_end<'a>(
    alloc: Global,
    end: CoreLife,
    thread: &CoreThread,
    elab: &Elab<'_>,
    ends: &mut Vec<End, &'a Bump>,
) -> Result<(), AllocError>
    requires twice { (widths : Widths) → IsTwice (term_of widths thread.now) elab.now }
    ensures { IfOk result (λ _. (widths : Widths) →
        AddsEnd (term_of widths thread.now) (end_of_life end) ends.old.items ends.new.items) }
{
    match end {
        CoreLife::Cycles(cycles) => {
            ends.push(End::After(cycles))?;
            Ok(())
        }
        CoreLife::Until(port) => add_acts(alloc, port, thread, elab, ends),
    }
}

/// Adds the ends of all acts on a port, in both turns.
fn add_acts<'a>(
    alloc: Global,
    port: u32,
    thread: &CoreThread,
    elab: &Elab<'_>,
    ends: &mut Vec<End, &'a Bump>,
) -> Result<(), AllocError>
    requires twice { (widths : Widths) → IsTwice (term_of widths thread.now) elab.now }
    ensures { IfOk result (λ _. (widths : Widths) →
        AddsEnd (term_of widths thread.now) (Until port) ends.old.items ends.new.items) }
{
    let sites = port_sites(alloc, thread, port)?;
    add_sites(&sites, thread, elab, ends)
}

/// Adds the ends of the acts of these sites.
fn add_sites<'a>(
    sites: &[u32],
    thread: &CoreThread,
    elab: &Elab<'_>,
    ends: &mut Vec<End, &'a Bump>,
) -> Result<(), AllocError>
    requires twice { (widths : Widths) → IsTwice (term_of widths thread.now) elab.now }
    requires inside { (widths : Widths) → AreSites (term_of widths thread.now) sites.now }
    ensures { IfOk result (λ _. (widths : Widths) →
        AddsActs (term_of widths thread.now) sites.now ends.old.items ends.new.items) }
{
    for site in sites {
        add_site(*site, thread, elab, ends)?;
    }
    Ok(())
}

/// Adds the ends of the act of a site, in the first turn and in the second.
fn add_site<'a>(
    site: u32,
    thread: &CoreThread,
    elab: &Elab<'_>,
    ends: &mut Vec<End, &'a Bump>,
) -> Result<(), AllocError>
    requires twice { (widths : Widths) → IsTwice (term_of widths thread.now) elab.now }
    requires inside { (widths : Widths) → site < size (term_of widths thread.now) }
    ensures { IfOk result (λ _. (widths : Widths) →
        AddsActs (term_of widths thread.now) (site ∷ []) ends.old.items ends.new.items) }
{
    ends.push(End::At(elab.points(1, site).end))?;
    ends.push(End::At(elab.points(2, site).end))?;
    Ok(())
}
