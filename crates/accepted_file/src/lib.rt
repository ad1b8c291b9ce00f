//! Files that the timing rules accept, and a worked example of one.
#![tactic(auto)]

mod accepted;
pub mod accepted_example;
pub mod example;

pub use accepted::Accepted;
