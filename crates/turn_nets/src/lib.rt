//! The pulses of one turn of a thread: those of the nodes of its tail, whether a turn begins, and then those of all nodes
//! in their order, as far as the decisions that they wait for are drawn.
#![tactic(auto)]

mod begin;
mod below;
mod setting;
mod tails;

pub use begin::draw_begin;
pub use below::draw_below;
pub use machine_parts::{Event, NodePlan};
pub use pulse_nets::{Netlist, Pulse, Signal};
pub use setting::{TurnSetting, bit_of, zero};
pub use tails::draw_tails;
