//! The log of a module of a process: what the module does on rows, put line by line up to the first broken promise of a
//! received port.
#![tactic(auto)]

pub mod laws;
mod log;
mod ports;
mod run;

pub use anvil_io::{Sink, SinkFault};
pub use core_term::{CoreProc, Row};
pub use log::put_module_log;
pub use ports::matches;
pub use run_log::{Broken, LogErr};
pub use sv_tree::SvModule;
