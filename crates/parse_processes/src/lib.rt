//! The processes of a file, read token by token.
//!
//! `process` reads a process, `endpoint` and `register` its parts, and `parse_threads` its threads.
#![tactic(auto)]

mod endpoint;
mod process;
mod register;

pub use process::{ProcessState, process_step};
