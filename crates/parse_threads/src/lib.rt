//! The acts and terms of a thread, read in place token by token.
//!
//! `Thread` is where the reading of a thread stands. What is begun waits in the frames of `thread_frames`; `begin`, `inside` and `act` read
//! the parts that lie in one another, and `parse_expressions` the expressions in them.
#![tactic(auto)]

mod act;
mod begin;
mod inside;
mod thread;

pub use thread::{Thread, thread_step};
