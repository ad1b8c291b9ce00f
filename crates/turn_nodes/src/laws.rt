//! Laws of the nodes of one turn, each the contract of a function that does nothing.
ghost use Rattle.turn_nodes.specs.Laws.{NodesAreLive, PortEndsAreApart, PortEndsWait};
ghost use Rattle.turn_nodes.specs.Laws.{SideNodesAreSides, SidesAreDrawn, TailsAreReached};

/// The live nodes of a turn are those of its graph.
pub fn nodes_are_live()
    ensures { NodesAreLive }
{}

/// Its nodes of the tail are those that are reached back from its end.
pub fn tails_are_reached()
    ensures { TailsAreReached }
{}

/// The end of an act on a port is a node that waits from the begin of the act on.
pub fn port_ends_wait()
    ensures { PortEndsWait }
{}

/// Different acts on ports end at different nodes.
pub fn port_ends_are_apart()
    ensures { PortEndsAreApart }
{}

/// The sides of an `if` begin at nodes of their own.
pub fn sides_are_drawn()
    ensures { SidesAreDrawn }
{}

/// Each node of the form Side begins a side of an `if`.
pub fn side_nodes_are_sides()
    ensures { SideNodesAreSides }
{}
