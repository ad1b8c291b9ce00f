//! The table of a life: the lags of its last cycle and the events of a graph.
ghost use Rattle.std.specs.Prelude.{◌≡◌, ◌<◌, ◌^◌, ℕ, List, length, IfOk};
ghost use Rattle.order_rules.specs.Last.{Ending};
ghost use Rattle.event_graph.specs.Event.{Event};
ghost use Rattle.event_graph.specs.Forms.{delays};
ghost use Rattle.event_order.specs.Lags.{lag_of};
ghost use Rattle.event_order.specs.Order.{IsOrderOf};
ghost use Rattle.lifetimes.specs.Ends.{IsEndLagOf, endings_of};
ghost use Rattle.lifetimes.specs.Tables.{IsLastAt, IsTableOf, event_count};

use crate::Life;
use crate::ends::add_ends;
use crate::row::go_on;
use event_graph::{EvId, Graph};
use event_order::{Lag, Order};
use std::alloc::{AllocError, Global};

/// The lags of the last cycle of one life and all events of a graph.
#[derive(Drop)]
pub struct EndTable {
    lags: Vec<Lag>,
}

impl EndTable {
    /// The table of a life, from the graph and its order. The life may have any number of ends, and no end too. It takes time
    /// proportional to the events and to the ends, and to both together only for ends after a number of cycles.
    ///
    /// Refuses only where memory is refused.
    pub fn fill(
        alloc: Global,
        graph: &Graph<'_>,
        order: &Order,
        life: &Life<'_>,
    ) -> Result<EndTable, AllocError>
        requires order { IsOrderOf graph.now order.now }
        requires short { delays graph.now < 2 ^ 30 }
        requires from { life.now.from < length graph.now }
        ensures { IfOk result (λ table. IsTableOf graph.now life.now.from (endings_of life.now.ends.now) table) }
    {
        let mut lags = vec![in alloc; Lag::Never; graph.count() as usize]?;
        add_ends(&mut lags, graph, order, life);
        go_on(&mut lags, graph, life);
        Ok(EndTable { lags })
    }

    /// The lag of the last cycle and an event: the largest d for which `last + d <= b` holds. It takes no memory.
    ///
    /// The second clause is for tables that are compared with this one: the lag is that of every table that is closed under the
    /// equations of the last cycle.
    pub fn end_lag(&self, b: EvId) -> Lag
        requires { b < event_count self.now }
        ensures largest { (events : List Event) (from : ℕ) (ends : List (Ending ℕ)) →
            IsTableOf events from ends self.now → IsEndLagOf events from ends result b }
        ensures closed { (events : List Event) (from : ℕ) (ends : List (Ending ℕ)) →
            IsTableOf events from ends self.now → IsLastAt events from ends b (lag_of result) }
    {
        self.lags[b as usize]
    }
}
