//! A lag in four bytes.
ghost use Rattle.std.specs.Prelude.{◌≡◌};
ghost use Rattle.event_order.specs.Lags.{IsSmall, kept, lag_of};

use crate::Lag;

/// A lag as a table keeps it. The distances of a graph lie within 2^30, so two numbers are free: the least i32 stands for no
/// distance, and the greatest for every one.
#[derive(Clone, Copy, Debug, PartialEq, Eq)]
pub struct Entry {
    code: i32,
}

impl Entry {
    /// The entry that keeps a lag within 2^30.
    pub fn of(lag: Lag) -> Entry
        requires { IsSmall (lag_of lag) }
        ensures { kept result ≡ lag_of lag }
    {
        match lag {
            Lag::Never => Entry { code: i32::MIN },
            Lag::AtLeast(distance) => Entry { code: distance },
            Lag::Vacuous => Entry { code: i32::MAX },
        }
    }

    /// The lag that is kept.
    pub fn lag(self) -> Lag
        ensures { lag_of result ≡ kept self }
    {
        if self.code == i32::MIN {
            return Lag::Never;
        }
        if self.code == i32::MAX {
            return Lag::Vacuous;
        }
        Lag::AtLeast(self.code)
    }
}
