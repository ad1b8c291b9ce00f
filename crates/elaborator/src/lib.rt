//! The elaborator: from a thread to the graph of its points, for one turn or for two that follow each other.
#![tactic(auto)]

mod elab;
mod points;
mod turn;
mod walk;

pub use bumpalo::Bump;
pub use core_term::CoreThread;
pub use elab::{Elab, elaborate};
pub use event_graph::{EvId, Graph};
pub use points::Points;
