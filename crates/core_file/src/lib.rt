//! The core file of a tree, and the checks of its processes in the order of the text.
//!
//! The crate has definitions and laws, and the type of what is refused. `width_check` has the code.
#![tactic(auto)]

mod error;
pub mod laws;

pub use error::NameErr;
