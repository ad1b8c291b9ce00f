//! The table of lags while it is filled, an entry after the other.
//!
//! The row of an event stands behind the rows of all earlier events: first the lags to it from each of them, then the lags from
//! it to each of them, then that from it to itself. So each entry follows from entries that stand before it.
ghost use Rattle.std.specs.Prelude.{◌≡◌, ◌<◌, ◌≤◌, ◌^◌, ◌+◌, ◌*◌, ℕ, length, slice_get, Some, vec_capacity};
ghost use Rattle.event_graph.specs.Event.{AreDrawn};
ghost use Rattle.event_graph.specs.Forms.{delays};
ghost use Rattle.event_order.specs.Lags.{IsSmall, Lags, at_pred, lag_of};
ghost use Rattle.event_order.specs.Stored.{IsClosed, IsFilled, place_of, stored};

use crate::lag::by_all;
use crate::{Entry, Lag, are_apart, by_left, by_right};
use event_graph::{EvId, Graph};

/// The place of the lag from `a` to `b` in the table, in entries.
pub fn place(a: EvId, b: EvId) -> usize
    requires first { a < 8192 }
    requires second { b < 8192 }
    ensures { result ≡ place_of a b }
{
    let from = a as usize;
    let to = b as usize;
    if from < to {
        to * to + from
    } else {
        from * from + from + to
    }
}

/// The lag from `a` to `b`, where it is in the table.
pub fn lag_in(table: &[Entry], a: EvId, b: EvId) -> Lag
    requires first { a < 8192 }
    requires second { b < 8192 }
    requires within { place_of a b < length table.now }
    ensures { lag_of result ≡ stored table.now (place_of a b) }
{
    table[place(a, b)].lag()
}

/// The lag in a row at the first predecessor of an event (`which` is 0) or the second (1), or `Never` where it has none.
pub fn lag_at(row: &[Entry], preds: &[EvId], which: usize) -> Lag
    requires { (k c : ℕ) → slice_get preds.now k ≡ Some c → c < length row.now }
    ensures { lag_of result ≡ at_pred (λ c. stored row.now c) (slice_get preds.now which) }
{
    match preds.get(which) {
        None => Lag::Never,
        Some(pred) => row[*pred as usize].lag(),
    }
}

/// The lag from an event to a predecessor of another, or `Never` where there is none.
fn lag_to(table: &[Entry], a: EvId, preds: &[EvId], which: usize) -> Lag
    requires first { a < 8192 }
    requires few { (k c : ℕ) → slice_get preds.now k ≡ Some c → c < 8192 }
    requires within { (k c : ℕ) → slice_get preds.now k ≡ Some c → place_of a c < length table.now }
    ensures { lag_of result ≡ at_pred (λ c. stored table.now (place_of a c)) (slice_get preds.now which) }
{
    match preds.get(which) {
        None => Lag::Never,
        Some(pred) => lag_in(table, a, *pred),
    }
}

/// The lag from a predecessor of an event to another, or `Never` where there is none.
fn lag_from(table: &[Entry], preds: &[EvId], which: usize, b: EvId) -> Lag
    requires second { b < 8192 }
    requires few { (k c : ℕ) → slice_get preds.now k ≡ Some c → c < 8192 }
    requires within { (k c : ℕ) → slice_get preds.now k ≡ Some c → place_of c b < length table.now }
    ensures { lag_of result ≡ at_pred (λ c. stored table.now (place_of c b)) (slice_get preds.now which) }
{
    match preds.get(which) {
        None => Lag::Never,
        Some(pred) => lag_in(table, *pred, b),
    }
}

/// The lag of the next two events, from those that stand in the table.
fn next_lag(table: &[Entry], graph: &Graph<'_>, a: EvId, b: EvId) -> Lag
    requires drawn { AreDrawn 0 graph.now }
    requires few { length graph.now ≤ 8192 }
    requires short { delays graph.now < 2 ^ 30 }
    requires first { a < length graph.now }
    requires second { b < length graph.now }
    requires next { length table.now ≡ place_of a b }
    requires filled { IsFilled graph.now table.now }
    ensures { (lags : Lags) → IsClosed graph.now lags → lag_of result ≡ lags a b }
{
    let node = graph.node(b);
    let other = graph.node(a);
    let first = lag_to(table, a, node.preds, 0);
    let second = lag_to(table, a, node.preds, 1);
    let right = by_right(node.kind, first, second);
    let third = lag_from(table, other.preds, 0, b);
    let fourth = lag_from(table, other.preds, 1, b);
    let left = by_left(other.kind, third, fourth);
    by_all(are_apart(other.arms, node.arms), a == b, right, left)
}

/// Adds the lag of the next two events at the end of the table, where there is room.
fn push_next(table: &mut Vec<Entry>, graph: &Graph<'_>, a: EvId, b: EvId)
    requires drawn { AreDrawn 0 graph.now }
    requires few { length graph.now ≤ 8192 }
    requires short { delays graph.now < 2 ^ 30 }
    requires first { a < length graph.now }
    requires second { b < length graph.now }
    requires next { length table.old.items ≡ place_of a b }
    requires filled { IsFilled graph.now table.old.items }
    requires room { place_of a b < vec_capacity table.old }
    ensures count { length table.new.items ≡ place_of a b + 1 }
    ensures filled { IsFilled graph.now table.new.items }
    ensures room { vec_capacity table.new ≡ vec_capacity table.old }
{
    let lag = next_lag(table, graph, a, b);
    table.push_reserved(Entry::of(lag));
}

/// Adds the lags from all earlier events to an event.
fn push_lags_to(table: &mut Vec<Entry>, graph: &Graph<'_>, b: EvId)
    requires drawn { AreDrawn 0 graph.now }
    requires few { length graph.now ≤ 8192 }
    requires short { delays graph.now < 2 ^ 30 }
    requires second { b < length graph.now }
    requires next { length table.old.items ≡ b * b }
    requires filled { IsFilled graph.now table.old.items }
    requires room { b * b + 2 * b < vec_capacity table.old }
    ensures count { length table.new.items ≡ b * b + b }
    ensures filled { IsFilled graph.now table.new.items }
    ensures room { vec_capacity table.new ≡ vec_capacity table.old }
{
    for a in 0..b {
        push_next(table, graph, a, b);
    }
}

/// Adds the lags from an event to all earlier events.
fn push_lags_from(table: &mut Vec<Entry>, graph: &Graph<'_>, b: EvId)
    requires drawn { AreDrawn 0 graph.now }
    requires few { length graph.now ≤ 8192 }
    requires short { delays graph.now < 2 ^ 30 }
    requires second { b < length graph.now }
    requires next { length table.old.items ≡ b * b + b }
    requires filled { IsFilled graph.now table.old.items }
    requires room { b * b + 2 * b < vec_capacity table.old }
    ensures count { length table.new.items ≡ b * b + 2 * b }
    ensures filled { IsFilled graph.now table.new.items }
    ensures room { vec_capacity table.new ≡ vec_capacity table.old }
{
    for a in 0..b {
        push_next(table, graph, b, a);
    }
}

/// Adds the row of the next event, where there is room.
pub fn push_row(table: &mut Vec<Entry>, graph: &Graph<'_>, b: EvId)
    requires drawn { AreDrawn 0 graph.now }
    requires few { length graph.now ≤ 8192 }
    requires short { delays graph.now < 2 ^ 30 }
    requires second { b < length graph.now }
    requires next { length table.old.items ≡ b * b }
    requires filled { IsFilled graph.now table.old.items }
    requires room { b * b + 2 * b < vec_capacity table.old }
    ensures count { length table.new.items ≡ b * b + 2 * b + 1 }
    ensures filled { IsFilled graph.now table.new.items }
    ensures room { vec_capacity table.new ≡ vec_capacity table.old }
{
    push_lags_to(table, graph, b);
    push_lags_from(table, graph, b);
    push_next(table, graph, b, b);
}
