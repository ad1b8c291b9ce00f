//! The lives of sent messages against the events of a graph, as tables of lags.
//!
//! A life begins at an event and has any number of ends. The lag of its last cycle and an event is the largest distance d for which
//! the last cycle and d cycles come no later than the event. [`EndTable::fill`] works out the lags of all events of a graph;
//! [`Lasts`] keeps such tables under the sites of the acts that send.
#![tactic(auto)]

mod ends;
mod lag;
mod lasts;
mod life;
mod row;
mod table;

pub use event_graph::{EvId, Graph};
pub use event_order::{Lag, Order};
pub use lasts::Lasts;
pub use life::{End, Life};
pub use table::EndTable;
