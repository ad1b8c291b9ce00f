//! What the ends of a life say of each event, one end after the other.
ghost use Rattle.std.specs.Prelude.{◌≡◌, ◌<◌, ◌≤◌, ◌^◌, ◌++◌, ◌∷◌, [], ℕ, List, length};
ghost use Rattle.order_rules.specs.Last.{Ending, Within, At};
ghost use Rattle.event_graph.specs.Forms.{delays};
ghost use Rattle.event_order.specs.Order.{IsOrderOf};
ghost use Rattle.lifetimes.specs.Ends.{ending_of, endings_of};
ghost use Rattle.lifetimes.specs.Tables.{AreEndsFrom, AreShort};

use crate::lag::{after_cycles, at_event};
use crate::{End, Life};
use event_graph::{EvId, Graph};
use event_order::{Lag, Order, most};

/// Adds to a row what all ends of a life say.
pub fn add_ends(row: &mut [Lag], graph: &Graph<'_>, order: &Order, life: &Life<'_>)
    requires order { IsOrderOf graph.now order.now }
    requires short { delays graph.now < 2 ^ 30 }
    requires from { life.now.from < length graph.now }
    requires whole { length row.old ≡ length graph.now }
    requires none { AreEndsFrom 0 graph.now life.now.from [] row.old }
    ensures said { AreEndsFrom 0 graph.now life.now.from (endings_of life.now.ends.now) row.new }
    ensures short { AreShort (endings_of life.now.ends.now) }
{
    for end in life.ends {
        add_end(row, graph, order, life.from, *end);
    }
}

/// Adds what one end says.
fn add_end(row: &mut [Lag], graph: &Graph<'_>, order: &Order, from: EvId, end: End)
    requires order { IsOrderOf graph.now order.now }
    requires short { delays graph.now < 2 ^ 30 }
    requires from { from < length graph.now }
    requires whole { length row.old ≡ length graph.now }
    ensures said { (ends : List (Ending ℕ)) → AreEndsFrom 0 graph.now from ends row.old →
        AreEndsFrom 0 graph.now from (ends ++ ending_of end ∷ []) row.new }
    ensures short { AreShort (ending_of end ∷ []) }
{
    match end {
        End::After(cycles) => add_cycles(row, graph, order, from, cycles),
        End::At(event) => add_event(row, graph, order, from, event),
    }
}

/// Adds what an end after so many cycles says, of each event.
fn add_cycles(row: &mut [Lag], graph: &Graph<'_>, order: &Order, from: EvId, cycles: u16)
    requires order { IsOrderOf graph.now order.now }
    requires short { delays graph.now < 2 ^ 30 }
    requires from { from < length graph.now }
    requires whole { length row.old ≡ length graph.now }
    ensures { (ends : List (Ending ℕ)) → AreEndsFrom 0 graph.now from ends row.old →
        AreEndsFrom 0 graph.now from (ends ++ Within cycles ∷ []) row.new }
{
    for event in 0..graph.count() {
        let lag = after_cycles(cycles, order.lag(from, event));
        row[event as usize] = most(row[event as usize], lag);
    }
}

/// Adds what an end at an event says, of that event. A number past the last event ends no life.
fn add_event(row: &mut [Lag], graph: &Graph<'_>, order: &Order, from: EvId, event: EvId)
    requires order { IsOrderOf graph.now order.now }
    requires from { from < length graph.now }
    requires whole { length row.old ≡ length graph.now }
    ensures { (ends : List (Ending ℕ)) → AreEndsFrom 0 graph.now from ends row.old →
        AreEndsFrom 0 graph.now from (ends ++ At event ∷ []) row.new }
{
    if event < graph.count() {
        let lag = at_event(order.lag(from, event));
        row[event as usize] = most(row[event as usize], lag);
    }
}
