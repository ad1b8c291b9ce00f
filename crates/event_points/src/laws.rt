//! Laws of the graph of a body, each the contract of a function that does nothing.
ghost use Rattle.event_points.specs.Endings.{GraphsAreOfBodies};
ghost use Rattle.event_points.specs.Graphs.{OneTurnStands, TwoTurnsStand};
ghost use Rattle.event_points.specs.Room.{GraphsAreSmall};
ghost use Rattle.event_points.specs.Sides.{SidesHaveArms, SidesInTextOrder};
ghost use Rattle.event_points.specs.TurnTimes.{NodesOccurInTurns, NodesOccurInTwoTurns};

/// The graph of one turn of a numbered body stands for the points of the turn.
pub fn one_turn_stands()
    ensures { OneTurnStands }
{}

/// The graph of two turns of a numbered body stands for the points of both.
pub fn two_turns_stand()
    ensures { TwoTurnsStand }
{}

/// The graph of two turns of a body, with the ends of the lives of its process, is a graph of the body as the rules ask for it.
pub fn graphs_are_of_bodies()
    ensures { GraphsAreOfBodies }
{}

/// The graph of a body has less than three nodes an act and turn, and one for the start.
pub fn graphs_are_small()
    ensures { GraphsAreSmall }
{}

/// In the graph of one turn the last arm of each side of an `if` is that side.
pub fn sides_have_arms()
    ensures { SidesHaveArms }
{}

/// In the graph of one turn the side of an `if` comes after the begins of all acts up to that `if`.
pub fn sides_in_text_order()
    ensures { SidesInTextOrder }
{}

/// The nodes of the graph of one turn occur at the cycles of their points, where the start is the begin of a turn of a run, the
/// delays are those of its sends and receives, and the sides those that were decided.
pub fn nodes_occur_in_turns()
    ensures { NodesOccurInTurns }
{}

/// The same of the graph of two turns that follow each other.
pub fn nodes_occur_in_two_turns()
    ensures { NodesOccurInTwoTurns }
{}
