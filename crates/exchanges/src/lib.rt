//! What is kept of the exchanges of a port from cycle to cycle: the latest one, and whether its life goes on.
//!
//! A promise is told by the latest exchange alone: while the promise is kept, each exchange whose life goes on has the data of
//! the latest one. So neither a simulation nor a watch keeps the cycles so far.
#![tactic(auto)]

mod broken;
mod latest;
pub mod laws;
mod lives;

pub use anvil_bits::Bits;
pub use broken::first_broken;
pub use core_term::{CoreLife, CorePort, CoreProc, InCell};
pub use latest::Latest;
pub use lives::Lives;
