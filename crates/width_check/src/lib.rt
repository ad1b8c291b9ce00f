//! The core file of a tree, where names stand for numbers, or the first check of its processes that fails.
#![tactic(auto)]

mod endpoints;
mod files;
mod process;
mod registers;
mod threads;

pub use anvil_tree::File;
pub use channel_classes::Classes;
pub use core_file::NameErr;
pub use core_term::CoreFile;
pub use files::resolve;
