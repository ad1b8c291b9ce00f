//! The nodes of the graph of one turn: which are live, of the tail, ends of acts on ports, or first points of sides.
//!
//! The crate has definitions and laws, and no code but functions that do nothing and carry the laws.
#![tactic(auto)]

pub mod laws;
