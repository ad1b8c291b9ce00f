//! The nets of a thread: a walk over its body that draws, in the order of the acts, the pulses up to the begin of each act, the
//! value that it uses, how it decides and which side it shows.
#![tactic(auto)]

mod act;
mod setting;
mod thread;
mod walk;

pub use core_term::CoreThread;
pub use machine_parts::{ThreadNets, ThreadStates, TurnPlan};
pub use module_nets::{Netlist, Signal};
pub use setting::ThreadSetting;
pub use thread::draw_thread;
