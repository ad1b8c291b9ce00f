//! Stimuli and logs: the text that gives a process its rows, the watch over the promises of its partners, and the text that shows
//! what it does.
//!
//! The format of both texts is that of `docs/formats.md`; the definitions are `StimulusText` and `LogText` of `core_term`.
#![tactic(auto)]

mod fields;
pub mod laws;
mod lines;
mod log;
mod passing;
mod pieces;
mod seen;
mod stimulus;
mod watch;
mod wires;

pub use anvil_io::{Sink, SinkFault};
pub use core_term::{CoreProc, InCell, OutCell, OutRow, Row};
pub use log::put_row;
pub use seen::Seen;
pub use stimulus::{StimErr, read_stim};
pub use watch::Watch;
