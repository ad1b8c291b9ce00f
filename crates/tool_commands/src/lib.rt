//! The commands: files from a shelf in, a text on `out` or a line on `err`, and a status.
//!
//! Each has one clause: the status and what was put are those of its form, from the stage on at which it begins.
#![tactic(auto)]

mod check;
mod compile;
mod generate;
mod limits;
mod logs;
mod module_text;
mod modules;
mod run;
mod run_module;
mod stimulus;

pub use check::check_file;
pub use compile::compile_file;
pub use generate::summarise;
pub use run::run_file;
pub use run_module::{ModuleRun, run_module_file};
