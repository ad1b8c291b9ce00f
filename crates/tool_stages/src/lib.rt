//! What each command does, stage by stage, as definitions; and the laws on answers and on logs.
//!
//! Nothing here does anything: the laws are contracts of functions without a body.
#![tactic(auto)]

mod laws;

pub use laws::{has_one_answer, logs_are_one};
