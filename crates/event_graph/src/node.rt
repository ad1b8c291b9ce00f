//! A node of a graph, with its kind, its predecessors and its arms.

/// The number of a node: how many nodes were added before it.
pub type EvId = u32;

/// A side of an `if`, in a turn: the one that is taken where the condition is not 0 (`yes`), or the other.
#[derive(Clone, Copy, Debug, PartialEq, Eq)]
pub struct Arm {
    /// The turn, from 1 on.
    pub turn: u8,
    /// The site of the `if`.
    pub site: u32,
    /// Whether it is the side that is taken where the condition is not 0.
    pub yes: bool,
}

/// How a node comes from its predecessors.
#[derive(Clone, Copy, Debug, PartialEq, Eq)]
pub enum Kind {
    /// It comes first, and has no predecessor.
    Start,
    /// With its predecessor.
    Same,
    /// So many cycles after its predecessor.
    After(u32),
    /// At a cycle that a partner decides, not before its predecessor.
    Sync,
    /// At the later of its two predecessors, where both come.
    Join,
    /// With its predecessor, where the `if` of its last arm decides for that side.
    Side,
    /// At the earlier of its two predecessors that come.
    Merge,
}

/// A node: its kind, its predecessors, and the sides in which it lies, outermost first.
#[derive(Clone, Copy)]
pub struct Node<'a> {
    /// How it comes from its predecessors.
    pub kind: Kind,
    /// Earlier nodes: none for `Start`, two for `Join` and `Merge`, one otherwise.
    pub preds: &'a [EvId],
    /// The sides in which it lies.
    pub arms: &'a [Arm],
}
