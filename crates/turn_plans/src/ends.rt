//! The nodes of the begins and ends of the acts of a thread.
ghost use Rattle.std.specs.Prelude.{◌≡◌, ◌<◌, length, IfOk};
ghost use Rattle.core_term.specs.Widths.{Widths};
ghost use Rattle.core_term.specs.View.{term_of};
ghost use Rattle.elaborator.specs.Turns.{IsOnce};
ghost use Rattle.turn_plans.specs.Read.{AreBegins, AreEnds};

use core_term::CoreThread;
use elaborator::{Elab, EvId};
use std::alloc::{AllocError, Global};

/// The nodes of the begins of all acts, by their sites.
pub fn begins_of(
    alloc: Global,
    thread: &CoreThread,
    elab: &Elab<'_>,
) -> Result<Vec<EvId>, AllocError>
    requires { (widths : Widths) → IsOnce (term_of widths thread.now) elab.now }
    ensures { IfOk result (λ begins. (widths : Widths) → AreBegins (term_of widths thread.now) begins.items) }
{
    let mut begins = Vec::new(alloc);
    for site in 0..thread.count() {
        begins.push(elab.points(1, site).begin)?;
    }
    Ok(begins)
}

/// The nodes of the ends of all acts, by their sites.
pub fn ends_of(alloc: Global, thread: &CoreThread, elab: &Elab<'_>) -> Result<Vec<EvId>, AllocError>
    requires { (widths : Widths) → IsOnce (term_of widths thread.now) elab.now }
    ensures { IfOk result (λ ends. (widths : Widths) → AreEnds (term_of widths thread.now) ends.items) }
{
    let mut ends = Vec::new(alloc);
    for site in 0..thread.count() {
        ends.push(elab.points(1, site).end)?;
    }
    Ok(ends)
}
