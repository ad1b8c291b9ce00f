//! What a module means against its process.
//!
//! The crate has definitions and laws, and no code but functions that do nothing and carry the laws.
#![tactic(auto)]

pub mod laws;
