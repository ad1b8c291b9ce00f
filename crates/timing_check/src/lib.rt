//! The timing rules of a file: the file as an accepted one, or its first violation.
#![tactic(auto)]

mod check;
mod earlier;
mod files;
mod refusal;
mod threads;

pub use accepted_file::Accepted;
pub use check::check_timing;
pub use core_term::{CoreFile, Rule};
pub use refusal::TimingErr;
