//! A node of the graph of one turn, as its nets are drawn.
use module_nets::Signal;

/// How a node comes from earlier ones, by their numbers.
#[derive(Clone, Copy)]
pub enum Shape {
    /// The begin of a turn.
    Start,
    /// With its predecessor.
    Same(u32),
    /// So many cycles after its predecessor.
    After(u32, u32),
    /// In the first cycle from its predecessor on in which its wire is 1.
    Sync(u32),
    /// With the later of two that both come.
    Join(u32, u32),
    /// With its predecessor, where its side is chosen.
    Side(u32),
    /// With the one of two that comes.
    Merge(u32, u32),
}

/// A node with the signals that it is drawn from.
#[derive(Clone, Copy)]
pub struct Part {
    /// How it comes from earlier nodes.
    pub shape: Shape,
    /// Whether a join forgets at each begin of a turn that one of its ends has come.
    pub forgets: bool,
    /// The bit of a `Sync` or a `Join`, or the counter of an `After`.
    pub state: Signal,
    /// The wire of a `Sync`, or whether the side of a `Side` is chosen.
    pub event: Signal,
}
