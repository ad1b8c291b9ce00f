//! The graph of a thread's points, with the nodes of the begins and ends of its acts.
ghost use Rattle.std.specs.Prelude.{◌≡◌, ◌<◌, ◌⊎◌, ◌^◌, ◌++◌, List, length, IfOk, IsSome, Some};
ghost use Rattle.core_term.specs.Widths.{Widths};
ghost use Rattle.core_term.specs.View.{term_of};
ghost use Rattle.event_graph.specs.Event.{Event};
ghost use Rattle.event_graph.specs.Forms.{delays};
ghost use Rattle.event_points.specs.Nodes.{once};
ghost use Rattle.elaborator.specs.Turns.{IsOnce, IsTwice};
ghost use Rattle.elaborator.specs.Seen.{body_in, points_in, turn_in};

use crate::Points;
use crate::turn::{Turn, add_turn};
use crate::walk::add_node;
use bumpalo::Bump;
use core_term::CoreThread;
use event_graph::{Builder, Graph, Kind};
use std::alloc::{AllocError, Global};

/// The graph of one or two turns of a thread, and the nodes of the points that others ask for.
#[derive(Drop)]
pub struct Elab<'a> {
    /// The graph. Its nodes stand for the points of the thread's body in one turn, or in two that follow each other.
    pub graph: Graph<'a>,
    first: Turn,
    second: Option<Turn>,
}

/// The graph of the points of one turn of a thread, or of two that follow each other.
///
/// Refuses only where memory is refused.
pub fn elaborate<'a>(
    alloc: Global,
    arena: &'a Bump,
    thread: &CoreThread,
    turns: u8,
) -> Result<Elab<'a>, AllocError>
    requires { (turns ≡ 1) ⊎ (turns ≡ 2) }
    ensures once { IfOk result (λ e. turns ≡ 1 → (w : Widths) → IsOnce (term_of w thread.now) e) }
    ensures twice { IfOk result (λ e. turns ≡ 2 → (w : Widths) → IsTwice (term_of w thread.now) e) }
    ensures grows { IfOk result (λ e. turns ≡ 2 → (w : Widths) → (rest : List Event) × (e.graph ≡ once (term_of w thread.now) ++ rest)) }
    ensures short { IfOk result (λ e. delays e.graph < 2 ^ 30) }
{
    let mut builder = Builder::new(arena);
    let start = add_node(Kind::Start, &[], &[], &mut builder)?;
    let first = add_turn(alloc, 1, thread, start, &mut builder)?;
    if turns == 1 {
        return Ok(Elab {
            graph: builder.finish(),
            first,
            second: None,
        });
    }
    let second = add_turn(alloc, 2, thread, first.body.end, &mut builder)?;
    Ok(Elab {
        graph: builder.finish(),
        first,
        second: Some(second),
    })
}

impl<'a> Elab<'a> {
    /// The nodes of the begin and the end of the act of a site, in a turn that was elaborated. It takes no memory.
    pub fn points(&self, turn: u8, site: u32) -> Points
        requires { IsSome (points_in self.now turn site) }
        ensures { points_in self.now turn site ≡ Some result }
    {
        self.turn(turn).acts[site as usize]
    }

    /// The nodes of the begin and the end of the thread's body, in a turn that was elaborated. It takes no memory.
    pub fn body(&self, turn: u8) -> Points
        requires { IsSome (body_in self.now turn) }
        ensures { body_in self.now turn ≡ Some result }
    {
        self.turn(turn).body
    }

    fn turn(&self, turn: u8) -> &Turn
        requires { IsSome (turn_in self.now turn) }
        ensures { turn_in self.now turn ≡ Some result.now }
    {
        match &self.second {
            Some(second) if turn == 2 => second,
            _ => &self.first,
        }
    }
}
