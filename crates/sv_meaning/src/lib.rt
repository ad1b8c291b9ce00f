//! The clocked meaning of a module, run: a machine that takes one row of inputs a cycle.
#![tactic(auto)]

mod cycle;
mod machine;
mod operator;

pub use anvil_bits::Bits;
pub use core_term::{InCell, OutCell, OutRow, Row};
pub use machine::Machine;
