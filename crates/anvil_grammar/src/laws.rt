//! Laws over the grammar, each the contract of a function that does nothing.
ghost use Rattle.anvil_grammar.specs.Laws.{AcceptedHasNoRefusal, AcceptedIsFew, ActsAreInOrder, EachHasOneTree, FirstRefusalsAreSame, TreesAreInOrder};

/// A list of tokens is one file at most.
pub fn each_has_one_tree()
    ensures { EachHasOneTree }
{}

/// The tree of tokens whose places rise is in order: its items, messages, endpoints, registers, acts and nodes never
/// fall in place from left to right.
pub fn trees_are_in_order()
    ensures { TreesAreInOrder }
{}

/// Nor do the acts of one thread fall, each before the acts inside it. An act that is an expression has the place of
/// its root node.
pub fn acts_are_in_order()
    ensures { ActsAreInOrder }
{}

/// A file whose things are within all limits, as they begin in the text, is within them by the counts of its tree.
pub fn accepted_is_few()
    ensures { AcceptedIsFew }
{}

/// Tokens that are a file within all limits have no refusal.
pub fn accepted_has_no_refusal()
    ensures { AcceptedHasNoRefusal }
{}

/// Two first refusals of one list of tokens are of one code, at one place.
pub fn first_refusals_are_same()
    ensures { FirstRefusalsAreSame }
{}
