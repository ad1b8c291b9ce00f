//! Laws of the tables of a graph, each the contract of a function that does nothing.
ghost use Rattle.run_laws.specs.TableLaws.{DemandsAreDecided, DemandsAreOfText, EntriesTellLast, EntriesTellOrder, GraphsHaveTables, TablesTellClaims};

/// What tells the order of the nodes of two points tells the order of the points: one entry of a table tells one judgement.
pub fn entries_tell_order()
    ensures { EntriesTellOrder }
{}

/// The same of the last cycle of the life of what one send sends, whatever the other sends and ports.
pub fn entries_tell_last()
    ensures { EntriesTellLast }
{}

/// A claim over the points of a body holds exactly where the tables of a graph of the body show it.
pub fn tables_tell_claims()
    ensures { TablesTellClaims }
{}

/// The demands of a body speak of points of its text.
pub fn demands_are_of_text()
    ensures { DemandsAreOfText }
{}

/// Each graph of a body has its tables.
pub fn graphs_have_tables()
    ensures { GraphsHaveTables }
{}

/// Where a body has a graph, each of its demands holds or does not, as the tables show it.
pub fn demands_are_decided()
    ensures { DemandsAreDecided }
{}
