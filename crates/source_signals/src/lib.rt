//! The signals that the threads of a process read.
#![tactic(auto)]

mod sources;

pub use core_term::{CorePort, CoreReg};
pub use module_nets::Signal;
pub use sources::{register_signals, wire_signals, word_signals};
