//! The tree of a source file: what the parser makes of its tokens.
//!
//! Each part keeps the place of the token that it is named by, as a byte offset. Nothing is checked here: names may be unknown,
//! and sizes may be past any limit.
#![tactic(auto)]

mod expr;
mod file;
mod term;

pub use anvil_lexer::Name;
pub use expr::{BinOp, Expr, ExprKind};
pub use file::{Chan, Endpoint, File, Item, LifeText, LiteralText, Message, Proc, Register, Side};
pub use term::{Act, ActKind, Term};
