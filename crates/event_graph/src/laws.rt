//! Laws of the nodes of a graph, each the contract of a function that does nothing.
ghost use Rattle.event_graph.specs.Laws.{NodesComeFromEarlier, NodesHaveTimes, TimesAreOne};

/// Each node of a graph comes from earlier nodes, as the laws of the order ask for it.
pub fn nodes_come_from_earlier()
    ensures { NodesComeFromEarlier }
{}

/// The nodes of a graph have times, for every cycle of the start, every delay and every choice of sides.
pub fn nodes_have_times()
    ensures { NodesHaveTimes }
{}

/// Two lists of times of one graph, from what is given alike, are the same.
pub fn times_are_one()
    ensures { TimesAreOne }
{}
