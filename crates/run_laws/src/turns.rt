//! Laws of the points of the turns of a thread, each the contract of a function that does nothing.
ghost use Rattle.run_laws.specs.TurnLaws.{EveryPointObeysItsRule, OrderLaw, LastLaw, TailsLaw};

/// In each turn each point occurs when its form says, from the points that its form names.
///
/// The end of a `send` or `recv` comes exactly where its wire first is 1, and of an `if` exactly the side for which it decided.
pub fn every_point_obeys_its_rule()
    ensures { EveryPointObeysItsRule }
{}

/// Where the order of points has "a + d is no later than b", and b comes in a turn, a has come d cycles before, or is lost.
pub fn order_law()
    ensures { OrderLaw }
{}

/// The same of the last cycle in the life of what a `send` has sent.
pub fn last_law()
    ensures { LastLaw }
{}

/// In a turn that ends, each act that began has ended by the end of the body, and each `send` and `recv` before it.
pub fn tails()
    ensures { TailsLaw }
{}
