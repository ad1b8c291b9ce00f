//! The machine of a body's turns: a graph that draws the points of a turn, and its pulses, which follow the turns.
//!
//! The crate has definitions and laws, and no code but functions that do nothing and carry the laws.
#![tactic(auto)]

pub mod laws;
