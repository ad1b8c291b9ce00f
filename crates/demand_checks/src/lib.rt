//! What the checks of the timing rules share: the violations of one thread as a definition, what its acts do by site, and the
//! judgements over its begins and ends.
#![tactic(auto)]

mod judge;
pub mod laws;
mod listing;
mod place;
mod reads;
mod rests;
mod sites;

pub use act_deeds::{Deed, deeds_of};
pub use core_term::{
    CoreAct, CoreExpr, CoreKind, CoreLife, CoreProc, CoreTerm, CoreThread, Rule, SourceAtom,
    Violation,
};
pub use elaborator::Elab;
pub use event_order::{EvId, Lag, Order};
pub use judge::{Judge, admits};
pub use lifetimes::Lasts;
pub use listing::list_rule;
pub use place::{Pair, Place};
pub use reads::reads_of;
pub use rests::{Rest, rests_of};
pub use sites::Sites;
