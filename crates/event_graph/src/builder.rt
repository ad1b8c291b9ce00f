//! A graph that grows, node by node.
//!
//! Nodes, predecessors and arms all lie in one arena, and are given up with it.
ghost use Rattle.std.specs.Prelude.{◌≡◌, ◌↔◌, ◌++◌, ◌∷◌, [], length, IfOk, OnErr, IsErrOf};
ghost use Rattle.event_graph.specs.Event.{ArePreds};

use crate::{Arm, EvId, Graph, Kind, Node};
use bumpalo::Bump;
use bumpalo::collections::into_bump_slice;
use std::alloc::AllocError;
use std::marker::Model;
use thiserror::Error;

/// The most nodes of a graph.
pub const MOST_NODES: usize = 8_192;

/// Why a node was not added.
#[derive(Clone, Copy, Debug, PartialEq, Eq, Error)]
pub enum GraphErr {
    /// Exactly where 8,192 nodes are there.
    #[error("too many nodes")]
    TooMany,
    /// The arena got no memory.
    #[error("no memory")]
    NoMemory,
}

/// A graph that grows. Contracts see it as the list of the nodes so far.
#[derive(Drop)]
pub struct Builder<'a> {
    arena: &'a Bump,
    nodes: Vec<Node<'a>, &'a Bump>,
}

impl<'a> Model for Builder<'a> {
    ghost use Rattle.std.specs.Prelude.{List, ◌≤◌, length};
    ghost use Rattle.event_graph.specs.Event.{AreDrawn, Event, events_of};

    ghost Value = { List Event };

    ghost view = { λ builder. events_of builder.nodes.items };

    ghost invariant = { λ builder. (length (events_of builder.nodes.items) ≤ 8192) × AreDrawn 0 (events_of builder.nodes.items) };
}

impl<'a> Builder<'a> {
    /// An empty graph.
    pub fn new(arena: &'a Bump) -> Builder<'a>
        ensures { result ≡ [] }
    {
        Builder {
            arena,
            nodes: Vec::new(arena),
        }
    }

    /// Adds a node and answers its number, which is the next one. The predecessors are copied, the arms are not.
    ///
    /// Refuses exactly where 8,192 nodes are there, or where the arena gets no memory, and then changes nothing.
    pub fn add(&mut self, kind: Kind, preds: &[EvId], arms: &'a [Arm]) -> Result<EvId, GraphErr>
        requires { ArePreds kind (length self.old) preds.now }
        ensures number { IfOk result (λ ev. ev ≡ length self.old) }
        ensures added { IfOk result (λ _. self.new ≡ self.old ++ record { kind = kind; preds = preds.now; arms = arms.now } ∷ []) }
        ensures too_many { IsErrOf result GraphErr.TooMany ↔ (length self.old ≡ 8192) }
        ensures same { OnErr result (self.new ≡ self.old) }
    {
        let count = self.nodes.len();
        if count >= MOST_NODES {
            return Err(GraphErr::TooMany);
        }
        let Ok(preds) = self.arena.try_alloc_slice_copy(preds) else {
            return Err(GraphErr::NoMemory);
        };
        match self.nodes.push(Node { kind, preds, arms }) {
            Ok(()) => Ok(count as u32),
            Err(_) => Err(GraphErr::NoMemory),
        }
    }

    /// A list of arms followed by one more, in the arena of the graph. The builder stays as it is.
    pub fn arm(&self, old: &[Arm], arm: Arm) -> Result<&'a [Arm], AllocError>
        ensures { IfOk result (λ arms. arms.now ≡ old.now ++ arm ∷ []) }
    {
        let mut arms = Vec::from_slice(self.arena, old)?;
        arms.push(arm)?;
        Ok(into_bump_slice(arms))
    }

    /// The graph of the nodes in order.
    pub fn finish(self) -> Graph<'a>
        ensures { result ≡ self.entry }
    {
        let Builder { arena: _, nodes } = self;
        Graph {
            nodes: into_bump_slice(nodes),
        }
    }
}
