//! The source run of a process, simulated one row of inputs a cycle.
//!
//! What is kept is one state for each act of the present turn, what the registers show, and the latest exchange of each port; no
//! row and no number of a cycle is kept. A cycle takes work in proportion to the acts, and no memory.
#![tactic(auto)]

mod act;
mod advance;
mod coming;
mod evaluate;
mod now;
mod operator;
mod parts;
mod passes;
mod sim;
mod start;
mod thread;
mod widths;

pub use core_term::{CoreProc, InCell, OutCell, OutRow, Row};
pub use sim::Sim;
