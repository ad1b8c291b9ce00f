//! Checks in the order of the text, and the refusal of the first one that fails.
//!
//! The crate has definitions and laws alone. The crates that check classes and processes state by them what they refuse.
#![tactic(auto)]

pub mod laws;
