//! Laws of runs, turns, safety, re-reading and the tables of graphs, each the contract of a function that does nothing.
#![tactic(auto)]

pub mod agreement;
pub mod laws;
pub mod safety;
pub mod tables;
pub mod turns;
