//! Begins and ends of acts, and pairs of sites.
ghost use Rattle.std.specs.Prelude.{◌≡◌};
ghost use Rattle.core_term.specs.Rules.{begin_of, end_of, next_begin_of, next_end_of};
ghost use Rattle.demand_checks.specs.Places.{point_of};

/// The begin or the end of an act, in the first of two turns or in the second.
#[derive(Clone, Copy, Debug, PartialEq, Eq)]
pub struct Place {
    /// In the second turn.
    pub late: bool,
    /// The end, and not the begin.
    pub end: bool,
    /// The site of the act.
    pub site: u32,
}

impl Place {
    /// The begin of an act.
    pub fn begin_of(site: u32) -> Place
        ensures { point_of result ≡ begin_of site }
    {
        Place {
            late: false,
            end: false,
            site,
        }
    }

    /// The end of an act.
    pub fn end_of(site: u32) -> Place
        ensures { point_of result ≡ end_of site }
    {
        Place {
            late: false,
            end: true,
            site,
        }
    }

    /// The begin of an act in the next turn.
    pub fn next_begin_of(site: u32) -> Place
        ensures { point_of result ≡ next_begin_of site }
    {
        Place {
            late: true,
            end: false,
            site,
        }
    }

    /// The end of an act in the next turn.
    pub fn next_end_of(site: u32) -> Place
        ensures { point_of result ≡ next_end_of site }
    {
        Place {
            late: true,
            end: true,
            site,
        }
    }
}

/// Two sites, in the order of the first and then of the second.
#[derive(Clone, Copy, Debug, PartialEq, Eq, PartialOrd, Ord)]
pub struct Pair {
    pub first: u32,
    pub second: u32,
}
