//! The processes of the generated file, as its tree has them.
#![tactic(auto)]

pub mod laws;
