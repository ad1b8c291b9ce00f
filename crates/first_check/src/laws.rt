//! Laws over checks in order, each the contract of a function that does nothing.
ghost use Rattle.first_check.specs.Laws.{FirstRefusalFailsFirst, NoRefusalIsAllHold};

/// The first refusal is that of the one check that fails while all before it hold.
pub fn first_refusal_fails_first<Refusal>()
    ensures { FirstRefusalFailsFirst Refusal }
{}

/// There is no first refusal exactly where all checks hold.
pub fn no_refusal_is_all_hold<Refusal>()
    ensures { NoRefusalIsAllHold Refusal }
{}
