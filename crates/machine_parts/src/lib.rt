//! What a state machine is made of: how each node of a turn is drawn, what each register keeps, and the signals of a thread.
//!
//! The crate has types and definitions, and no code. The crates that draw, and the laws about what is drawn, stand on it.
#![tactic(auto)]

mod frame;
mod plan;
mod thread;

pub use act_deeds::Deed;
pub use frame::{Frame, Keep, ThreadStates};
pub use module_nets::{Signal, SvPort, SvReg};
pub use plan::{Event, NodePlan, TurnPlan};
pub use pulse_nets::{Pulse, Shape};
pub use thread::{ThreadDraft, ThreadNets};
