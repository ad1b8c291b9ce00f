//! Laws of the nodes of a graph and their times, each the contract of a function that does nothing.
ghost use Rattle.order_rules.specs.NodeLaws.{LastLaw, LastTablesExist, OrderLaw, TablesExist};

/// Where the order has "a + d is no later than b", and b occurs, a has occurred d cycles before, or is lost.
pub fn order_law()
    ensures { OrderLaw }
{}

/// The same of the last cycle of a life that begins at a.
pub fn last_law()
    ensures { LastLaw }
{}

/// Each graph whose nodes come from earlier nodes has a closed table of the order.
pub fn tables_exist()
    ensures { TablesExist }
{}

/// The same of a table of the last cycle of a life.
pub fn last_tables_exist()
    ensures { LastTablesExist }
{}
