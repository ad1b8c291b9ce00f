//! The graph of events of a thread, in one arena.
//!
//! A [`Builder`] takes nodes one by one, each with its kind, its predecessors among the nodes before it and the sides of
//! `if`s in which it lies. A [`Graph`] is the nodes in the order of their numbers. Contracts see both as a list of plain
//! nodes, `Event`: forms, exclusion and the times of nodes are functions and relations of that list.
#![tactic(auto)]

mod builder;
mod graph;
pub mod laws;
mod node;

pub use builder::{Builder, GraphErr, MOST_NODES};
pub use bumpalo::Bump;
pub use graph::Graph;
pub use node::{Arm, EvId, Kind, Node};
