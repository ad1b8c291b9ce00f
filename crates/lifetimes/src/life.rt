//! A life: the event from which on it lasts, and its ends.
use event_graph::EvId;

/// One end of a life.
#[derive(Clone, Copy, Debug, PartialEq, Eq)]
pub enum End {
    /// The life has at most so many cycles, the first of them that of the event from which on it lasts.
    After(u16),
    /// The event is in the last cycle of the life, where it does not come before the life.
    At(EvId),
}

/// A life. It is over at the first of its ends that comes.
#[derive(Clone, Copy, Debug)]
pub struct Life<'a> {
    /// The event from which on it lasts.
    pub from: EvId,
    /// Its ends, in any order. Without an end it lasts for ever.
    pub ends: &'a [End],
}
