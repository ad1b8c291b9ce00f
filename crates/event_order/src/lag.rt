//! Lags, and how the lag of two events follows from those of their predecessors.
ghost use Rattle.std.specs.Prelude.{◌≡◌, ◌<◌, ◌^◌};
ghost use Rattle.order_rules.specs.Entry as rules;
ghost use Rattle.event_graph.specs.Forms.{delay_of};
ghost use Rattle.event_order.specs.Lags.{IsSmall, entry_of, lag_of, left_of, right_of};

use event_graph::Kind;

/// For which distances d one event and d cycles come no later than another: for none, for all up to one, or for all.
#[derive(Clone, Copy, Debug, PartialEq, Eq)]
pub enum Lag {
    /// For no distance.
    Never,
    /// For this distance and all smaller ones, in cycles.
    AtLeast(i32),
    /// For every distance: where the second comes, the first does not.
    Vacuous,
}

/// The distances for which the one or the other holds.
pub fn most(first: Lag, second: Lag) -> Lag
    ensures { lag_of result ≡ rules.most (lag_of first) (lag_of second) }
{
    match first {
        Lag::Never => second,
        Lag::Vacuous => Lag::Vacuous,
        Lag::AtLeast(distance) => match second {
            Lag::Never => Lag::AtLeast(distance),
            Lag::Vacuous => Lag::Vacuous,
            Lag::AtLeast(other) => Lag::AtLeast(distance.max(other)),
        },
    }
}

/// The distances for which both hold.
pub fn least(first: Lag, second: Lag) -> Lag
    ensures { lag_of result ≡ rules.least (lag_of first) (lag_of second) }
{
    match first {
        Lag::Never => Lag::Never,
        Lag::Vacuous => second,
        Lag::AtLeast(distance) => match second {
            Lag::Never => Lag::Never,
            Lag::Vacuous => Lag::AtLeast(distance),
            Lag::AtLeast(other) => Lag::AtLeast(distance.min(other)),
        },
    }
}

/// Each distance by so many cycles more.
fn more(cycles: u32, lag: Lag) -> Lag
    requires cycles { cycles < 2 ^ 30 }
    requires small { IsSmall (lag_of lag) }
    ensures { lag_of result ≡ rules.more cycles (lag_of lag) }
{
    match lag {
        Lag::AtLeast(distance) => Lag::AtLeast(distance + cycles as i32),
        _ => lag,
    }
}

/// Each distance by so many cycles fewer.
fn fewer(cycles: u32, lag: Lag) -> Lag
    requires cycles { cycles < 2 ^ 30 }
    requires small { IsSmall (lag_of lag) }
    ensures { lag_of result ≡ rules.fewer cycles (lag_of lag) }
{
    match lag {
        Lag::AtLeast(distance) => Lag::AtLeast(distance - cycles as i32),
        _ => lag,
    }
}

/// The lag to an event of a kind, by the rules that go on from its predecessors: from the lags to its first and its second
/// predecessor.
pub fn by_right(kind: Kind, first: Lag, second: Lag) -> Lag
    requires cycles { delay_of kind < 2 ^ 30 }
    requires small { IsSmall (lag_of first) }
    ensures { lag_of result ≡ right_of kind (lag_of first) (lag_of second) }
{
    match kind {
        Kind::Start => Lag::Never,
        Kind::Same | Kind::Side | Kind::Sync => first,
        Kind::After(cycles) => more(cycles, first),
        Kind::Join => most(first, second),
        Kind::Merge => least(first, second),
    }
}

/// The lag from an event of a kind, by the rules that come from its predecessors: from the lags from its first and its second
/// predecessor.
pub fn by_left(kind: Kind, first: Lag, second: Lag) -> Lag
    requires cycles { delay_of kind < 2 ^ 30 }
    requires small { IsSmall (lag_of first) }
    ensures { lag_of result ≡ left_of kind (lag_of first) (lag_of second) }
{
    match kind {
        Kind::Start | Kind::Sync => Lag::Never,
        Kind::Same | Kind::Side => first,
        Kind::After(cycles) => fewer(cycles, first),
        Kind::Merge | Kind::Join => least(first, second),
    }
}

/// The lag of two events that exclude each other or not, and are one or not, by all rules.
pub fn by_all(apart: bool, same: bool, right: Lag, left: Lag) -> Lag
    ensures { lag_of result ≡ entry_of apart same (lag_of right) (lag_of left) }
{
    if apart {
        return Lag::Vacuous;
    }
    let here = if same { Lag::AtLeast(0) } else { Lag::Never };
    most(here, most(right, left))
}
