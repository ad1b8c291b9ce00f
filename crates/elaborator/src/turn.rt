//! The nodes of the points of one turn of a thread.
ghost use Rattle.std.specs.Prelude.{◌≡◌, ◌<◌, ◌≤◌, length, IfOk};
ghost use Rattle.core_term.specs.Widths.{Widths};
ghost use Rattle.core_term.specs.View.{term_of};
ghost use Rattle.elaborator.specs.Turns.{TurnDrawn};

use crate::Points;
use crate::walk::add_term;
use core_term::CoreThread;
use event_graph::{Builder, EvId};
use std::alloc::{AllocError, Global};

/// The nodes of the begins and ends of the acts of a turn, one pair a site, and of its body.
#[derive(Drop)]
pub struct Turn {
    pub acts: Vec<Points>,
    pub body: Points,
}

/// Adds the nodes of the points of the turn of a number, which begins at a node that is there.
pub fn add_turn<'a>(
    alloc: Global,
    number: u8,
    thread: &CoreThread,
    begin: EvId,
    builder: &mut Builder<'a>,
) -> Result<Turn, AllocError>
    requires begin { begin < length builder.old }
    requires room { length builder.old ≤ 4096 }
    ensures { IfOk result (λ turn. (w : Widths) → TurnDrawn number begin (term_of w thread.now) builder.old builder.new turn) }
{
    let none = Points { begin: 0, end: 0 };
    let mut acts = vec![in alloc; none; thread.count() as usize]?;
    let end = add_term(number, thread.body(), begin, &[], builder, &mut acts)?;
    Ok(Turn {
        acts,
        body: Points { begin, end },
    })
}
