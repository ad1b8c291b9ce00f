//! Core terms: what a thread does once names stand for numbers, and the definitions that the tool is proved against.
#![tactic(auto)]

mod atoms;
mod operators;
mod places;
mod process;
mod rows;
mod rules;
mod table;
mod term;
mod thread;

pub use anvil_bits::Bits;
pub use anvil_lexer::Name;
pub use operators::BinOp;
pub use process::{CoreFile, CoreLife, CorePort, CoreProc, CoreReg};
pub use rows::{InCell, OutCell, OutRow, Row};
pub use rules::{Rule, Violation};
pub use term::{CoreAct, CoreExpr, CoreKind, CoreTerm, SourceAtom};
pub use thread::CoreThread;
