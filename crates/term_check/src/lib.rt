//! Terms: the core term of a term in a scope, whether a term is tail-stepped, and what a thread takes; or the first check that fails.
#![tactic(auto)]

mod acts;
mod pure;
mod tail;
mod taken;
mod terms;

pub use core_file::NameErr;
pub use tail::check_tail;
pub use taken::{Taken, take_term};
pub use terms::{ReadTerm, read_term};
