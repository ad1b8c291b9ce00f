//! The ports and registers of the module of a process, and what each register keeps.
#![tactic(auto)]

mod digits;
mod draft;
mod frame;
pub mod laws;
mod thread;

pub use core_term::CoreProc;
pub use frame::frame_of;
pub use machine_parts::{Frame, Keep, ThreadStates, TurnPlan};
