//! Drawn nets are a machine of the process: a module whose registers and ports are given what the threads make means the
//! re-reading run of the process.
//!
//! The crate has definitions and laws, and no code but functions that do nothing and carry the laws.
#![tactic(auto)]

pub mod laws;
