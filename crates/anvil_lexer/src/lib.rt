//! From bytes to tokens, and the names that stand in them.
#![tactic(auto)]

mod class;
mod error;
mod front;
mod gap;
mod good_name;
mod name;
mod numeral;
mod table;
mod token;
mod tokens;

pub use error::LexErr;
pub use good_name::{is_good_name, may_stand_in_name};
pub use name::{LONGEST_NAME, Name};
pub use token::{Keyword, Mark, Token, TokenKind};
pub use tokens::lex;
