//! The order of the events of a graph.
ghost use Rattle.std.specs.Prelude.{◌≡◌, ◌<◌, ◌≤◌, ◌^◌, ◌*◌, List, length, vec_len, IfOk};

use crate::table::{lag_in, push_row};
use crate::{Entry, Lag};
use event_graph::{EvId, Graph};
use std::alloc::{AllocError, Global};

/// The lags of all pairs of events of a graph: four bytes a pair.
#[derive(Drop)]
pub struct Order {
    count: u32,
    entries: Vec<Entry>,
    ghost few: { count ≤ 8192 },
    ghost square: { length entries.items ≡ count * count },
}

impl Order {
    ghost use Rattle.event_graph.specs.Event.{Event};
    ghost use Rattle.event_graph.specs.Forms.{delays};
    ghost use Rattle.event_order.specs.Lags.{Lags, lag_of};
    ghost use Rattle.event_order.specs.Order.{IsLagOf, IsOrderOf};
    ghost use Rattle.event_order.specs.Stored.{IsClosed};

    /// The order of the events of a graph whose delays are small together. It takes the memory for all pairs at once, and time
    /// proportional to their number, where events lie in few sides.
    ///
    /// Refuses only where memory is refused.
    pub fn fill(alloc: Global, graph: &Graph<'_>) -> Result<Order, AllocError>
        requires { delays graph.now < 2 ^ 30 }
        ensures { IfOk result (λ order. IsOrderOf graph.now order) }
    {
        let count = graph.count();
        let pairs = count as usize * count as usize;
        let mut entries = Vec::with_capacity(alloc, pairs)?;
        for event in 0..count {
            push_row(&mut entries, graph, event);
        }
        Ok(Order { count, entries })
    }

    /// The lag from one event to another: the largest d for which `a + d <= b` holds. It takes no memory.
    ///
    /// The second clause is for tables that are filled from this one: the lag is that of every table that is closed under the
    /// equations of the order.
    pub fn lag(&self, a: EvId, b: EvId) -> Lag
        requires first { a < self.now.count }
        requires second { b < self.now.count }
        ensures largest { (events : List Event) → IsOrderOf events self.now → IsLagOf events result a b }
        ensures closed { (events : List Event) → IsOrderOf events self.now → (lags : Lags) → IsClosed events lags → lag_of result ≡ lags a b }
    {
        lag_in(&self.entries, a, b)
    }
}
