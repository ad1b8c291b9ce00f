//! The log of a run of a process on rows: put line by line up to the first broken promise of a received port.
//!
//! The run may be any that the trait [`Run`] speaks of: that of the source, or that of a module.
#![tactic(auto)]

mod cycle;
mod log;
mod run;

pub use anvil_io::{Sink, SinkFault};
pub use core_term::{CoreProc, OutRow, Row};
pub use log::{Broken, LogErr, put_run};
pub use run::Run;
