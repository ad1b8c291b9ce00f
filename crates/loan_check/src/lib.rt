//! The rules V7 and V8: what a use rests on does not change before the use is over.
//!
//! A register that was read shows its value up to the end of each use of it (V7), and an `if` does not decide again while its
//! side is in use (V8). [`loan_violations`] lists the uses of a thread for which this is not shown.
#![tactic(auto)]

mod choices;
mod elsewhere;
mod loans;
mod registers;

pub use demand_checks::{CoreProc, Elab, Lasts, Order, Violation};
pub use loans::loan_violations;
