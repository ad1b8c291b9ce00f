//! What the registers and ports of a module are given, over threads that are drawn, and the finished module.
#![tactic(auto)]

mod acts;
mod finish;
mod newest;
mod nexts;
mod outs;
mod parts;
mod states;

pub use core_term::CorePort;
pub use finish::finish_module;
pub use machine_parts::{Deed, Keep, ThreadDraft, TurnPlan};
pub use module_nets::{Name, Netlist, Signal, SvModule};
pub use newest::draw_newest;
pub use pulse_nets::Pulse;
