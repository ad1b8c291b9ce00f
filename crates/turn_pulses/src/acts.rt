//! Laws of what is kept of acts that begin, each the contract of a function that does nothing.
ghost use Rattle.turn_pulses.specs.LatestLaws.{
  LastWriteCounts,
  LatestIsShown,
  NewestBeganLast,
  NewestValueIsShown,
};

/// The choice of the latest begin of an act is shown until it begins again.
pub fn latest_is_shown()
    ensures { LatestIsShown }
{}

/// Of several acts the one that is shown began last.
pub fn newest_began_last()
    ensures { NewestBeganLast }
{}

/// The value that is shown is that of the act that began last.
pub fn newest_value_is_shown()
    ensures { NewestValueIsShown }
{}

/// Of several writes in a cycle the last in text order counts.
pub fn last_write_counts()
    ensures { LastWriteCounts }
{}
