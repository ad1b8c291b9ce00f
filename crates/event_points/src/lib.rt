//! The graph of the points of a thread's body, for one turn and for two that follow each other, as definitions and laws.
//!
//! The crate has no code but functions that do nothing, whose contracts are the laws. `elaborator` makes the graphs.
#![tactic(auto)]

pub mod laws;
