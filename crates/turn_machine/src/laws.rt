//! Laws of the graph of a turn and of its machine, each the contract of a function that does nothing.
ghost use Rattle.turn_machine.specs.Follows.{PulsesFollowTurns};
ghost use Rattle.turn_machine.specs.OneTurn.{OneTurnIsDrawn};
ghost use Rattle.turn_machine.specs.Reached.{TailIsReached};
ghost use Rattle.turn_machine.specs.SideArms.{ArmsChooseSides};
ghost use Rattle.turn_machine.specs.TailEnds.{TailEndsAreRead};

/// The ends of the tail are read off the text of a body.
pub fn tail_ends_are_read()
    ensures { TailEndsAreRead }
{}

/// The pulses of a machine over a graph that draws a body follow the turns of each walk.
pub fn pulses_follow_turns()
    ensures { PulsesFollowTurns }
{}

/// Nodes that stand for the points of one turn give a graph that a machine can be built over, and that draws the turn.
pub fn one_turn_is_drawn()
    ensures { OneTurnIsDrawn }
{}

/// The nodes of the tail are those that are reached back from the end of the body.
pub fn tail_is_reached()
    ensures { TailIsReached }
{}

/// Where the nodes of the sides have their arms, the sides are chosen as their arms say.
pub fn arms_choose_sides()
    ensures { ArmsChooseSides }
{}
