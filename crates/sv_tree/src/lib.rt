//! Emitted modules as trees.
//!
//! A module is what the compiler writes of a process: ports, registers, nets and what drives them. The type keeps that it
//! is well-formed, so that a later stage cannot be handed a module that has no text or no meaning. What its text is and
//! what it means in each cycle are the definitions in `specs/`.
#![tactic(auto)]

pub mod laws;
mod module;
mod tree;

pub use anvil_bits::Bits;
pub use anvil_lexer::Name;
pub use core_term::BinOp;
pub use module::SvModule;
pub use tree::{SvNet, SvOp, SvOperand, SvOut, SvPort, SvRef, SvReg, SvRegName};
