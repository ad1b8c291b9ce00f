//! A graph that is done: its nodes by number.
ghost use Rattle.std.specs.Prelude.{◌≡◌, ◌<◌, ◌≤◌, length, slice_get, Some};
ghost use Rattle.event_graph.specs.Event.{AreDrawn, event_of};

use crate::{EvId, Node};
use std::marker::Model;

/// A graph of at most 8,192 nodes, each of which comes from earlier nodes.
///
/// It lies in the arena of its builder, and does not outlive it.
#[derive(Drop)]
pub struct Graph<'a> {
    pub(crate) nodes: &'a [Node<'a>],
}

impl<'a> Model for Graph<'a> {
    ghost use Rattle.std.specs.Prelude.{List, ◌≤◌, length};
    ghost use Rattle.event_graph.specs.Event.{AreDrawn, Event, events_of};

    ghost Value = { List Event };

    ghost view = { λ graph. events_of graph.nodes.now };

    ghost invariant = { λ graph. (length (events_of graph.nodes.now) ≤ 8192) × AreDrawn 0 (events_of graph.nodes.now) };
}

impl<'a> Graph<'a> {
    /// How many nodes there are.
    pub fn count(&self) -> u32
        ensures count { result ≡ length self.now }
        ensures few { length self.now ≤ 8192 }
        ensures drawn { AreDrawn 0 self.now }
    {
        self.nodes.len() as u32
    }

    /// The node of a number.
    pub fn node(&self, ev: EvId) -> Node<'a>
        requires { ev < length self.now }
        ensures { slice_get self.now ev ≡ Some (event_of result) }
    {
        self.nodes[ev as usize]
    }
}
