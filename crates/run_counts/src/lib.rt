//! What is counted of a run of a process on rows: the exchanges of all its ports, and the sum of its registers in the last cycle.
#![tactic(auto)]

mod cells;
mod counts;
pub mod laws;

pub use core_term::{CoreProc, Row};
pub use counts::{Counts, count_module};
pub use sv_tree::SvModule;
