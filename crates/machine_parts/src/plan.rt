//! How the nodes of one turn of a thread are drawn, told from its graph and its text.
use act_deeds::Deed;
use pulse_nets::Shape;

/// What has to come, besides its predecessors, for a node to come.
#[derive(Clone, Copy)]
pub enum Event {
    /// Nothing.
    Nothing,
    /// The wire of a port that ends an act on it: its `valid` where the port is received, its `ack` where it is sent.
    Wire(u32),
    /// That the `if` of a site decides for its first side, or for the other.
    Side { site: u32, first: bool },
}

/// How a node is drawn.
#[derive(Clone, Copy)]
pub struct NodePlan {
    /// How it comes from earlier nodes.
    pub shape: Shape,
    /// Whether it is of the tail: it may fall on the end of the turn.
    pub tail: bool,
    /// What it waits for.
    pub event: Event,
}

/// The nodes of one turn, and where the acts stand among them.
#[derive(Drop)]
pub struct TurnPlan {
    /// The nodes, each after its predecessors.
    pub nodes: Vec<NodePlan>,
    /// The node of the begin of each act, by its site.
    pub begins: Vec<u32>,
    /// The node of the end of each act, by its site.
    pub ends: Vec<u32>,
    /// The node of the end of the turn.
    pub last: u32,
    /// What each act does, by its site.
    pub deeds: Vec<Deed>,
}
