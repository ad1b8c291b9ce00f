//! A law that only the crates of events together tell: the graph of one turn has the order of its points.
#![tactic(auto)]

pub mod laws;
