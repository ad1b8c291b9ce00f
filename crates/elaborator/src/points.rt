//! The nodes of the begin and the end of an act.
use event_graph::EvId;

/// The nodes of the begin and the end of an act, or of a body. Both may be one node.
#[derive(Clone, Copy, Debug, PartialEq, Eq)]
pub struct Points {
    /// The node of its begin.
    pub begin: EvId,
    /// The node of its end.
    pub end: EvId,
}
