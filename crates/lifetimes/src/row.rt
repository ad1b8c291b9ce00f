//! The row of a life, event by event: from what its ends say to the lags of its last cycle.
ghost use Rattle.std.specs.Prelude.{◌≡◌, ◌<◌, ◌≤◌, ◌^◌, ℕ, length, slice_get, Some};
ghost use Rattle.event_graph.specs.Event.{AreDrawn};
ghost use Rattle.event_graph.specs.Forms.{delays};
ghost use Rattle.event_order.specs.Lags.{at_pred, lag_of};
ghost use Rattle.lifetimes.specs.Ends.{endings_of};
ghost use Rattle.lifetimes.specs.Tables.{AreEndsFrom, AreShort, IsFilledTo, IsLastAt, kept_at};

use crate::Life;
use crate::lag::onward;
use event_graph::{EvId, Graph};
use event_order::{Lag, are_apart, most};

/// Goes through a row that has what the ends of a life say, and puts the lag of the last cycle in the place of each.
pub fn go_on(row: &mut [Lag], graph: &Graph<'_>, life: &Life<'_>)
    requires short { delays graph.now < 2 ^ 30 }
    requires from { life.now.from < length graph.now }
    requires whole { length row.old ≡ length graph.now }
    requires ends { AreEndsFrom 0 graph.now life.now.from (endings_of life.now.ends.now) row.old }
    requires short_ends { AreShort (endings_of life.now.ends.now) }
    ensures { IsFilledTo (length graph.now) graph.now life.now.from (endings_of life.now.ends.now) row.new }
{
    for event in 0..graph.count() {
        row[event as usize] = next_lag(row, graph, life, event);
    }
}

/// The lag of the last cycle and the next event, from what its ends say and the lags of the events before it.
fn next_lag(row: &[Lag], graph: &Graph<'_>, life: &Life<'_>, event: EvId) -> Lag
    requires drawn { AreDrawn 0 graph.now }
    requires short { delays graph.now < 2 ^ 30 }
    requires from { life.now.from < length graph.now }
    requires next { event < length graph.now }
    requires whole { length row.now ≡ length graph.now }
    requires ends { AreEndsFrom event graph.now life.now.from (endings_of life.now.ends.now) row.now }
    requires filled { IsFilledTo event graph.now life.now.from (endings_of life.now.ends.now) row.now }
    requires short_ends { AreShort (endings_of life.now.ends.now) }
    ensures { IsLastAt graph.now life.now.from (endings_of life.now.ends.now) event (lag_of result) }
{
    let node = graph.node(event);
    if are_apart(graph.node(life.from).arms, node.arms) {
        return Lag::Vacuous;
    }
    let first = lag_at(row, node.preds, 0);
    let second = lag_at(row, node.preds, 1);
    most(row[event as usize], onward(node.kind, first, second))
}

/// The lag in a row at the first predecessor of an event (`which` is 0) or the second (1), or `Never` where it has none.
fn lag_at(row: &[Lag], preds: &[EvId], which: usize) -> Lag
    requires { (k c : ℕ) → slice_get preds.now k ≡ Some c → c < length row.now }
    ensures { lag_of result ≡ at_pred (kept_at row.now) (slice_get preds.now which) }
{
    match preds.get(which) {
        None => Lag::Never,
        Some(pred) => row[*pred as usize],
    }
}
