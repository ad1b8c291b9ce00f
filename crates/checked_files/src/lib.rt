//! From the bytes of a source file to the accepted file that they spell, or to its first refusal.
#![tactic(auto)]

mod faults;
mod front;
mod process;
mod rules;

pub use accepted_file::Accepted;
pub use core_term::CoreProc;
pub use process::{Chosen, process_of_bytes};
pub use rules::accepted_of_bytes;
pub use tool_answers::Refusal;
