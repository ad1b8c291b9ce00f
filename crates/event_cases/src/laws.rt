//! A law of the graph of one turn, the contract of a function that does nothing.
ghost use Rattle.event_cases.specs.OneTurn.{OneTurnTells};

/// The judgements over the nodes of the graph of one turn are those over the points of the turn.
pub fn one_turn_tells()
    ensures { OneTurnTells }
{}
