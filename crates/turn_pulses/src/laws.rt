//! Laws of the pulses and counters of a machine, each the contract of a function that does nothing.
ghost use Rattle.turn_pulses.specs.PulseLaws.{CountersFit, OffersArePending, PulsesAreOccurrences};

/// In each cycle of the list a live node has a pulse exactly where it occurs in some turn.
pub fn pulses_are_occurrences()
    ensures { PulsesAreOccurrences }
{}

/// An act that waits for a partner is offered exactly where it has begun and its wire has not been 1 since.
pub fn offers_are_pending()
    ensures { OffersArePending }
{}

/// A counter never exceeds its delay.
pub fn counters_fit()
    ensures { CountersFit }
{}
