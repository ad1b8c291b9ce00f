//! The generated file: a source file of as many processes as a number says, and the rows that they are run on.
//!
//! Takes a number from 1 to 64 and gives the bytes of its file; refuses only where memory is refused.
#![tactic(auto)]

mod file;
mod rows;

pub use core_term::Row;
pub use file::generate;
pub use rows::{row_of, rows_of};
