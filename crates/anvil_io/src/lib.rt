//! Where the tool's bytes come from and where they go: shelves, which are asked for files by name, and sinks, which take
//! pieces of text.
//!
//! The two traits carry what the tool's own promises rest on: what a shelf holds, what a sink holds, and counts of faults,
//! so that an answer that blames the outside can be held against a count that rose. Two impls are over memory and say
//! everything; two adapt real files and streams, and tell nothing of content.
#![tactic(auto)]

mod files;
mod mem_shelf;
mod mem_sink;
mod outside;
mod pieces;
mod writers;

pub use files::FsShelf;
pub use mem_shelf::MemShelf;
pub use mem_sink::MemSink;
pub use outside::{LoadErr, Shelf, Sink, SinkFault};
pub use pieces::put_all;
pub use writers::StdSink;
