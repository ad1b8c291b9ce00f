//! A module as it grows: signals, nets that are added one after the other, and the nets of expressions.
//!
//! What a contract says of a net is an equation of the finished module: in each cycle of each well-formed module that
//! extends the netlist, the new signal shows what its operator gives of what its operands show.
#![tactic(auto)]

mod bits;
mod expression;
mod netlist;
mod scope;
mod signal;

pub use anvil_bits::Bits;
pub use anvil_lexer::Name;
pub use core_term::{BinOp, CoreExpr};
pub use expression::{draw_expression, draw_operator};
pub use netlist::Netlist;
pub use scope::{Scope, Variable};
pub use signal::Signal;
pub use sv_tree::{SvModule, SvOperand, SvOut, SvPort, SvReg};
