//! The order of the events of a graph, as a table of lags.
//!
//! The lag of two events is the largest distance d for which the first and d cycles come no later than the second.
//! [`Order::fill`] takes a graph and fills the table in time proportional to the pairs of its events; [`Order::lag`] reads it.
//! A lag takes four bytes, and the table is one vector that grows at its end where a graph gets more events.
#![tactic(auto)]

mod apart;
mod entry;
mod lag;
mod order;
mod table;

pub use apart::are_apart;
pub use entry::Entry;
pub use event_graph::{Arm, EvId, Graph, Kind};
pub use lag::{Lag, by_left, by_right, least, most};
pub use order::Order;
pub use table::lag_at;
