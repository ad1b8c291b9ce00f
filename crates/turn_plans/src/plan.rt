//! The plan of one turn of a thread.
ghost use Rattle.std.specs.Prelude.{IfOk};
ghost use Rattle.core_term.specs.Widths.{Widths};
ghost use Rattle.core_term.specs.View.{term_of};
ghost use Rattle.elaborator.specs.Turns.{IsOnce};
ghost use Rattle.machine_parts.specs.Plans.{IsTurnPlan};

use crate::ends::{begins_of, ends_of};
use crate::nodes::nodes_of;
use crate::shapes::shapes_of;
use crate::tails::tails_of;
use crate::wires::events_of;
use act_deeds::deeds_of;
use bumpalo::Bump;
use core_term::CoreThread;
use elaborator::{Elab, elaborate};
use machine_parts::TurnPlan;
use std::alloc::{AllocError, Global};

/// How the nodes of one turn of a thread are drawn.
///
/// Refuses only where memory is refused.
pub fn plan_turn(alloc: Global, thread: &CoreThread) -> Result<TurnPlan, AllocError>
    ensures { IfOk result (λ plan. (widths : Widths) → IsTurnPlan (term_of widths thread.now) plan) }
{
    let arena = Bump::new(alloc);
    let elab = elaborate(alloc, &arena, thread, 1)?;
    plan_of(alloc, thread, &elab)
}

/// The same, from the graph of the turn.
fn plan_of(alloc: Global, thread: &CoreThread, elab: &Elab<'_>) -> Result<TurnPlan, AllocError>
    requires { (widths : Widths) → IsOnce (term_of widths thread.now) elab.now }
    ensures { IfOk result (λ plan. (widths : Widths) → IsTurnPlan (term_of widths thread.now) plan) }
{
    let _body = thread.body();
    let deeds = deeds_of(alloc, thread)?;
    let begins = begins_of(alloc, thread, elab)?;
    let ends = ends_of(alloc, thread, elab)?;
    let last = elab.body(1).end;
    let shapes = shapes_of(alloc, &elab.graph)?;
    let tails = tails_of(alloc, &shapes, last)?;
    let events = events_of(alloc, &elab.graph, &deeds, &ends)?;
    let nodes = nodes_of(alloc, &shapes, &tails, &events)?;
    Ok(TurnPlan {
        nodes,
        begins,
        ends,
        last,
        deeds,
    })
}
