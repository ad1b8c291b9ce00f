//! What one end of a life says of an event, and how the lag of a last cycle follows from those at the predecessors of an event.
ghost use Rattle.std.specs.Prelude.{◌≡◌, ◌<◌, ◌^◌, ℕ};
ghost use Rattle.order_rules.specs.Entry as rules;
ghost use Rattle.order_rules.specs.Last.{Within};
ghost use Rattle.order_rules.specs.LastEntry.{end_entry};
ghost use Rattle.event_graph.specs.Forms.{delay_of};
ghost use Rattle.event_order.specs.Lags.{IsSmall, lag_of, right_of};
ghost use Rattle.lifetimes.specs.Tables.{FitsLag, by_event};

use event_graph::Kind;
use event_order::{Lag, least, most};

/// The lag of the last of so many cycles, from the lag of the event at which the first of them comes.
pub fn after_cycles(cycles: u16, lag: Lag) -> Lag
    requires { IsSmall (lag_of lag) }
    ensures { (b : ℕ) → lag_of result ≡ end_entry (lag_of lag) b (Within cycles) }
{
    match lag {
        Lag::AtLeast(distance) => Lag::AtLeast(distance + 1 - cycles as i32),
        _ => lag,
    }
}

/// The lag of a last cycle and the event that ends it, from the lag of the event from which on the life lasts: none where the event
/// may come before the life.
pub fn at_event(lag: Lag) -> Lag
    ensures { lag_of result ≡ by_event (lag_of lag) }
{
    match lag {
        Lag::Never => Lag::Never,
        Lag::Vacuous => Lag::AtLeast(0),
        Lag::AtLeast(distance) => {
            if distance >= 0 {
                Lag::AtLeast(0)
            } else {
                Lag::Never
            }
        }
    }
}

/// Each distance by so many cycles more.
fn more(cycles: u32, lag: Lag) -> Lag
    requires cycles { cycles < 2 ^ 30 }
    requires fits { FitsLag (rules.more cycles (lag_of lag)) }
    ensures { lag_of result ≡ rules.more cycles (lag_of lag) }
{
    match lag {
        Lag::AtLeast(distance) => Lag::AtLeast(distance + cycles as i32),
        _ => lag,
    }
}

/// The lag of a last cycle and an event of a kind, by the rules that go on from its predecessors: from the lags at its first and its
/// second predecessor.
pub fn onward(kind: Kind, first: Lag, second: Lag) -> Lag
    requires cycles { delay_of kind < 2 ^ 30 }
    requires fits { FitsLag (right_of kind (lag_of first) (lag_of second)) }
    ensures { lag_of result ≡ right_of kind (lag_of first) (lag_of second) }
{
    match kind {
        Kind::Start => Lag::Never,
        Kind::Same | Kind::Side | Kind::Sync => first,
        Kind::After(cycles) => more(cycles, first),
        Kind::Join => most(first, second),
        Kind::Merge => least(first, second),
    }
}
