//! The machine of a process, by what its nets and registers show in each cycle, and what it means.
//!
//! The crate has definitions and laws, and no code but functions that do nothing and carry the laws.
#![tactic(auto)]

pub mod laws;
