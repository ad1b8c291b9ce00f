//! How the nodes of one turn of a thread are drawn, told from its graph and its text.
#![tactic(auto)]

mod ends;
mod nodes;
mod plan;
mod shapes;
mod tails;
mod wires;

pub use core_term::CoreThread;
pub use machine_parts::{Deed, Event, NodePlan, Shape, TurnPlan};
pub use plan::plan_turn;
