//! Expressions: what is known where an act stands, and the core expression of an expression there with its width, or the first check of it that
//! fails.
#![tactic(auto)]

mod expr;
mod made;
mod nodes;
mod room;
mod scope;
mod tables;

pub use core_file::NameErr;
pub use expr::read_expr;
pub use made::Made;
pub use nodes::{differ, is_width, read_literal};
pub use room::{boxed, push};
pub use scope::{Known, PortPlace, RegisterPlace, Scope};
pub use tables::{PortTable, RegisterTable};
