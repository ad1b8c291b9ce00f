//! A machine of pulses over the graph of one turn, and what its pulses mean over a timeline of turns.
//!
//! The crate has definitions and laws, and no code but functions that do nothing and carry the laws.
#![tactic(auto)]

pub mod acts;
pub mod laws;
