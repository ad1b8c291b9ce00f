//! The laws of a simulation: one state for each act, taken cycle by cycle, tells what the run of a process tells at once.
//!
//! There is no code here but the types that are kept of an act and of a port. What a cycle does to them is the pure step of
//! `specs/`, and the laws of `laws` say that it stands for the run.
#![tactic(auto)]

mod act_state;
mod drive;
pub mod laws;

pub use act_state::{ActState, Does};
pub use anvil_bits::Bits;
pub use drive::Drive;
