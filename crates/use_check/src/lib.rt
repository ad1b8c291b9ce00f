//! The rules V2 and V6: a value is there when it is used, and what was received is used within its life.
//!
//! A variable is made before an expression reads it (V2), and a received value is used within each end of the life of its exchange
//! (V6). [`use_violations`] lists the reads and uses of a thread for which this is not shown.
#![tactic(auto)]

mod made;
mod uses;
mod wires;

pub use demand_checks::{CoreProc, Elab, Lasts, Order, Violation};
pub use uses::use_violations;
