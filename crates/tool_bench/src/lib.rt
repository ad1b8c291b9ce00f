//! Calls of the tool over memory, for tests: what a call leaves is held against what is wanted, and let go, here.
//!
//! A test that holds sinks and shelves of its own is dear to prove, since each of its exits lets them go. These functions
//! take references and give small values, so a test that calls them lets nothing go.
#![tactic(auto)]

mod calls;
mod extent;
mod parts;

pub use calls::{call_against, call_beside, call_twice};
pub use extent::{Ended, Extent};
pub use parts::{Call, Faults, NO_FAULTS};
