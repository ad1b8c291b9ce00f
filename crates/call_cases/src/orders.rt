//! Lags of events and of last cycles of lives, over graphs that are built by hand. All are worked by hand from the rules of the order.
ghost use Rattle.std.specs.Prelude.{◌≡◌, ◌<◌, ◌≤◌, ◌^◌, ◌+◌, ◌*◌, [], length, IfOk, OnOk};
ghost use Rattle.event_graph.specs.Forms.{delays};
ghost use Rattle.event_order.specs.Order.{IsOrderOf};

use event_graph::{Arm, Builder, Bump, EvId, Graph, GraphErr, Kind};
use event_order::{Lag, Order};
use lifetimes::{End, EndTable, Life};
use std::alloc::{AllocError, Global};

// The events of the graph of `add_sync_and_join`.
const START: EvId = 0;

const AFTER: EvId = 1;

const SYNC: EvId = 2;

const JOIN: EvId = 3;

// A start, two cycles after it, a sync, and the later of the start and the sync.
fn add_sync_and_join(builder: &mut Builder<'_>) -> Result<(), GraphErr>
    requires { builder.old ≡ [] }
    ensures count { OnOk result (length builder.new ≡ 4) }
    ensures short { OnOk result (delays builder.new ≡ 2) }
{
    let start = builder.add(Kind::Start, &[], &[])?;
    let after = builder.add(Kind::After(2), &[start], &[])?;
    let sync = builder.add(Kind::Sync, &[after], &[])?;
    builder.add(Kind::Join, &[start, sync], &[])?;
    Ok(())
}

// Its lags: to the right over the join and the sync, and to the left over the sync and the two cycles.
fn lags_over_the_sync(alloc: Global) -> Option<[Lag; 4]> {
    let arena = Bump::new(alloc);
    let mut builder = Builder::new(&arena);
    let added = add_sync_and_join(&mut builder);
    let graph = builder.finish();
    let lags = match added {
        Ok(()) => four_lags(alloc, &graph).ok(),
        Err(_) => None,
    };
    drop(graph);
    drop(arena);
    lags
}

fn four_lags(alloc: Global, graph: &Graph<'_>) -> Result<[Lag; 4], AllocError>
    requires count { length graph.now ≡ 4 }
    requires short { delays graph.now < 2 ^ 30 }
{
    let order = Order::fill(alloc, graph)?;
    let lags = [
        order.lag(START, JOIN),
        order.lag(AFTER, SYNC),
        order.lag(SYNC, AFTER),
        order.lag(AFTER, START),
    ];
    drop(order);
    Ok(lags)
}

#[test]
fn lags_over_a_sync_and_a_join(rt: HostRuntime) {
    let wanted = [
        Lag::AtLeast(2),
        Lag::AtLeast(0),
        Lag::Never,
        Lag::AtLeast(-2),
    ];
    assert!(rt; lags_over_the_sync(rt.alloc()) == Some(wanted));
}

// The side of the `if` of site 0 in the first turn.
fn side(yes: bool) -> Arm {
    Arm {
        turn: 1,
        site: 0,
        yes,
    }
}

// A start, the two sides of an `if`, three cycles after the other side, and the merge of both.
fn add_two_sides(builder: &mut Builder<'_>) -> Result<(), GraphErr>
    requires { builder.old ≡ [] }
    ensures count { OnOk result (length builder.new ≡ 5) }
    ensures short { OnOk result (delays builder.new ≡ 3) }
{
    let Ok(taken) = builder.arm(&[], side(true)) else {
        return Err(GraphErr::NoMemory);
    };
    let Ok(other) = builder.arm(&[], side(false)) else {
        return Err(GraphErr::NoMemory);
    };
    let start = builder.add(Kind::Start, &[], &[])?;
    let first = builder.add(Kind::Side, &[start], taken)?;
    let second = builder.add(Kind::Side, &[start], other)?;
    let late = builder.add(Kind::After(3), &[second], other)?;
    builder.add(Kind::Merge, &[first, late], &[])?;
    Ok(())
}

// Its lags: from one side to the other, from the other side over its three cycles, and over the merge.
fn lags_over_the_sides(alloc: Global) -> Option<[Lag; 3]> {
    let arena = Bump::new(alloc);
    let mut builder = Builder::new(&arena);
    let added = add_two_sides(&mut builder);
    let graph = builder.finish();
    let lags = match added {
        Ok(()) => three_lags(alloc, &graph).ok(),
        Err(_) => None,
    };
    drop(graph);
    drop(arena);
    lags
}

fn three_lags(alloc: Global, graph: &Graph<'_>) -> Result<[Lag; 3], AllocError>
    requires count { length graph.now ≡ 5 }
    requires short { delays graph.now < 2 ^ 30 }
{
    let order = Order::fill(alloc, graph)?;
    let lags = [order.lag(1, 2), order.lag(2, 3), order.lag(0, 4)];
    drop(order);
    Ok(lags)
}

/// Two sides of one `if` exclude each other. Their merge comes with the earlier of those that come.
#[test]
fn lags_over_two_sides(rt: HostRuntime) {
    let wanted = [Lag::Vacuous, Lag::AtLeast(3), Lag::AtLeast(0)];
    assert!(rt; lags_over_the_sides(rt.alloc()) == Some(wanted));
}

// Adds a start and then blocks of two cycles side by side in a chain, and answers the last end.
fn add_chain(builder: &mut Builder<'_>, blocks: u8) -> Result<EvId, GraphErr>
    requires { builder.old ≡ [] }
    ensures end { IfOk result (λ end. end < length builder.new) }
    ensures short { OnOk result (delays builder.new ≤ 2 * blocks) }
{
    let start = builder.add(Kind::Start, &[], &[])?;
    add_joins(builder, start, blocks)
}

fn add_joins(builder: &mut Builder<'_>, start: EvId, blocks: u8) -> Result<EvId, GraphErr>
    requires { start < length builder.old }
    ensures end { IfOk result (λ end. end < length builder.new) }
    ensures short { OnOk result (delays builder.new ≤ delays builder.old + 2 * blocks) }
{
    let mut end = start;
    for _block in 0..blocks {
        let first = builder.add(Kind::After(1), &[end], &[])?;
        let second = builder.add(Kind::After(1), &[end], &[])?;
        end = builder.add(Kind::Join, &[first, second], &[])?;
    }
    Ok(end)
}

// The lags of the start and the end of such a chain, both ways.
fn lags_over_the_chain(alloc: Global, blocks: u8) -> Option<[Lag; 2]> {
    let arena = Bump::new(alloc);
    let mut builder = Builder::new(&arena);
    let added = add_chain(&mut builder, blocks);
    let graph = builder.finish();
    let lags = match added {
        Ok(end) => two_lags(alloc, &graph, end).ok(),
        Err(_) => None,
    };
    drop(graph);
    drop(arena);
    lags
}

fn two_lags(alloc: Global, graph: &Graph<'_>, end: EvId) -> Result<[Lag; 2], AllocError>
    requires end { end < length graph.now }
    requires short { delays graph.now < 2 ^ 30 }
{
    let order = Order::fill(alloc, graph)?;
    let lags = [order.lag(0, end), order.lag(end, 0)];
    drop(order);
    Ok(lags)
}

/// `{ cycle 1 ; cycle 1 }`, 100 times in a chain. A search for derivations that keeps none would have 2^100 ways to go.
#[test]
fn lags_over_a_chain_of_100_joins(rt: HostRuntime) {
    let wanted = [Lag::AtLeast(100), Lag::AtLeast(-100)];
    assert!(rt; lags_over_the_chain(rt.alloc(), 100) == Some(wanted));
}

/// A life, an event, and the lag of the last cycle of the life and the event.
type LifeLag<'a> = (EvId, &'a [End], EvId, Lag);

// Whether the lag is so.
fn is_lag(alloc: Global, graph: &Graph<'_>, order: &Order, row: LifeLag<'_>) -> bool
    requires order { IsOrderOf graph.now order.now }
    requires short { delays graph.now < 2 ^ 30 }
{
    let (from, ends, event, wanted) = row;
    if from >= graph.count() || event >= graph.count() {
        return false;
    }
    match EndTable::fill(alloc, graph, order, &Life { from, ends }) {
        Ok(table) => {
            let same = table.end_lag(event) == wanted;
            drop(table);
            same
        }
        Err(_) => false,
    }
}

// The first row that is not so.
fn first_wrong_in(
    alloc: Global,
    graph: &Graph<'_>,
    order: &Order,
    rows: &[LifeLag<'_>],
) -> Option<usize>
    requires order { IsOrderOf graph.now order.now }
    requires short { delays graph.now < 2 ^ 30 }
{
    for (number, row) in rows.iter().enumerate() {
        if !is_lag(alloc, graph, order, *row) {
            return Some(number);
        }
    }
    None
}

// The same over a graph.
fn first_wrong_over(alloc: Global, graph: &Graph<'_>, rows: &[LifeLag<'_>]) -> Option<usize>
    requires { delays graph.now < 2 ^ 30 }
{
    match Order::fill(alloc, graph) {
        Ok(order) => {
            let wrong = first_wrong_in(alloc, graph, &order, rows);
            drop(order);
            wrong
        }
        Err(_) => Some(0),
    }
}

// The same over the graph of `add_sync_and_join`.
fn first_wrong(alloc: Global, rows: &[LifeLag<'_>]) -> Option<usize> {
    let arena = Bump::new(alloc);
    let mut builder = Builder::new(&arena);
    let added = add_sync_and_join(&mut builder);
    let graph = builder.finish();
    let wrong = match added {
        Ok(()) => first_wrong_over(alloc, &graph, rows),
        Err(_) => Some(0),
    };
    drop(graph);
    drop(arena);
    wrong
}

#[test]
fn lives_over_a_sync_and_a_join(rt: HostRuntime) {
    let rows: [LifeLag<'_>; 9] = [
        (AFTER, &[End::After(3)], JOIN, Lag::AtLeast(-2)),
        (AFTER, &[End::After(3)], START, Lag::AtLeast(-4)),
        (AFTER, &[], JOIN, Lag::Never),
        (AFTER, &[End::After(0)], JOIN, Lag::AtLeast(1)),
        (AFTER, &[End::At(SYNC)], JOIN, Lag::AtLeast(0)),
        (AFTER, &[End::At(START)], JOIN, Lag::Never),
        (
            AFTER,
            &[End::After(3), End::At(SYNC)],
            JOIN,
            Lag::AtLeast(0),
        ),
        (START, &[End::After(1)], AFTER, Lag::AtLeast(2)),
        (AFTER, &[End::After(2)], AFTER, Lag::AtLeast(-1)),
    ];
    assert_eq!(rt; first_wrong(rt.alloc(), &rows), None);
}
