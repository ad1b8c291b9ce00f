//! Laws of the order over the nodes of a graph, each the contract of a function that does nothing.
ghost use Rattle.order_rules.specs.Laws.{ClosedLastTableTells, ClosedTableTells, JudgementsAreDecided};

/// A table that is closed under the equations of its entries tells the order of all nodes: it admits exactly the distances for
/// which the judgement is derived.
pub fn closed_table_tells()
    ensures { ClosedTableTells }
{}

/// The same for a table of the last cycle of a life with a list of ends.
pub fn closed_last_table_tells()
    ensures { ClosedLastTableTells }
{}

/// Each judgement over the nodes of a graph holds or does not.
pub fn judgements_are_decided()
    ensures { JudgementsAreDecided }
{}
