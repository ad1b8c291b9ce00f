//! Builds the module of a process.
#![tactic(auto)]

mod module;
mod threads;

pub use core_term::CoreProc;
pub use module::build;
pub use sv_tree::SvModule;
