//! The rules on two acts that do the same: sets of one register (V3), receives of one port (V4) and sends of one port (V5).
//!
//! [`send_violations`] lists the demands of these rules that a thread does not keep.
#![tactic(auto)]

mod check;
mod clash;
mod pairs;

pub use check::send_violations;
pub use core_term::{CoreProc, Rule, Violation};
pub use demand_checks::{Elab, Lasts, Order};
