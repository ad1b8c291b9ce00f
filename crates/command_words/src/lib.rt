//! The words of the command line: the command that they ask for, and the usage line.
//!
//! A form is a command with the words that stand for its parts; `Command` is a form as code has it. `form_of` reads words: its clause
//! says that what it reads is the form that the words have, and that it reads nothing exactly where they have none.
#![tactic(auto)]

mod matcher;
mod usage_line;
mod words;

pub use usage_line::usage;
pub use words::{Command, form_of};
