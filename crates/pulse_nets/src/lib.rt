//! The nets of a machine of pulses: the pulse of a node, what its bit or counter takes at the end of a cycle, and what several
//! acts do together.
#![tactic(auto)]

mod forms;
mod node;
mod states;
mod writes;

pub use forms::{Pulse, draw_pulse};
pub use module_nets::{Netlist, Signal};
pub use node::{Part, Shape};
pub use states::draw_next;
pub use writes::{Write, draw_any, draw_last_write};
