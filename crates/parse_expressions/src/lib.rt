//! Expressions, read in place token by token.
//!
//! `Expression` is where the reading of one stands. An operator waits in the `frames` for its second operand; when that is whole, it is
//! taken by the frames that bind it more strongly than the next token does. `read` has what each token does; `room` and `expect` serve
//! the crate above too.
#![tactic(auto)]

mod expect;
mod expression;
mod frames;
mod nodes;
mod operator;
mod read;
mod room;

pub use expect::is_mark;
pub use expression::{Expression, ExpressionStep, Read};
pub use room::{boxed, boxed_pair, first_of, push, put, refuse, refused};
