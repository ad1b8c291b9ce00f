//! The tables of the lives of what a thread sends.
//!
//! The life of what an act sends is that of its port: [`lasts_of`] makes it of the ends that the process has for the port and of the
//! events of the thread's graph, in an arena, and fills its table.
#![tactic(auto)]

mod ends;
mod lasts;
mod sites;

pub use bumpalo::Bump;
pub use core_term::{CoreProc, CoreThread};
pub use elaborator::Elab;
pub use event_order::Order;
pub use lasts::lasts_of;
pub use lifetimes::Lasts;
