//! The tool: words, files and two sinks in, a status out.
//!
//! `run_tool` is the one call that the program makes. Its clauses say what each status tells of the words, of the bytes that
//! were loaded and of what stands on the sinks.
#![tactic(auto)]

mod tool;

pub use anvil_io::{FsShelf, LoadErr, MemShelf, MemSink, Shelf, Sink, SinkFault, StdSink};
pub use tool::run_tool;
pub use tool_answers::Status;
pub use tool_stages::{has_one_answer, logs_are_one};
