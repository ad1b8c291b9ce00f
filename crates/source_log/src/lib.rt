//! The log of a process: its source run on rows, put line by line up to the first broken promise of its partners.
#![tactic(auto)]

mod log;
mod run;

pub use anvil_io::{Sink, SinkFault};
pub use core_term::{CoreProc, Row};
pub use log::put_log;
pub use run_log::{Broken, LogErr};
