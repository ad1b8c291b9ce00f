//! The channel classes of a file, each found by its name, or the first check of them that fails.
//!
//! A class says what messages a channel carries: on which side each travels, how wide it is, and how long its data stands.
#![tactic(auto)]

mod classes;
mod error;
mod message;

pub use anvil_lexer::Name;
pub use anvil_tree::{File, Side};
pub use classes::{Classes, read_classes};
pub use error::ClassErr;
pub use message::{ClassLife, ClassMessage};
