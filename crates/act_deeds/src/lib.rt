//! What each act of a thread does, by its site.
#![tactic(auto)]

mod deed;

pub use core_term::{CoreAct, CoreKind, CoreTerm, CoreThread};
pub use deed::{Deed, deeds_of};
