//! The processes of the generated file, each compiled, and its module run on its rows: what `gen` puts.
//!
//! The counts are those of the modules, which are proved to be those of the source runs.
#![tactic(auto)]

mod file;
mod summary;
mod totals;

pub use anvil_io::{Sink, SinkFault};
pub use file::summary_of;
pub use run_counts::Counts;
pub use summary::{Summary, put_summary};
pub use tool_answers::Refusal;
