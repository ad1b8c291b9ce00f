//! The ports and registers of a module, and what each register keeps.
use module_nets::{Signal, SvPort, SvReg};

/// What a register keeps. Threads, nodes and sites are named by their numbers.
#[derive(Clone, Copy)]
pub enum Keep {
    /// The register of the source of this number.
    Source(u32),
    /// That the first turn of a thread has begun.
    Started(u32),
    /// The bit or the counter of a node.
    Node { thread: u32, node: u32 },
    /// The side of the latest decision of an `if`.
    Side { thread: u32, site: u32 },
    /// Whether a `send` began last of its port.
    Newest { thread: u32, site: u32 },
}

/// The registers of a thread, as signals. What has no register has a literal bit 0 in its place.
#[derive(Drop)]
pub struct ThreadStates {
    /// Whether the first turn has begun.
    pub started: Signal,
    /// The bit or the counter of each node.
    pub nodes: Vec<Signal>,
    /// The kept side of each `if`, by its site.
    pub sides: Vec<Signal>,
    /// Whether each `send` began last of its port, by its site.
    pub newest: Vec<Signal>,
}

/// The ports and registers of a module, what each register keeps, and the registers of each thread.
#[derive(Drop)]
pub struct Frame {
    /// The ports of the process, in its order.
    pub ports: Vec<SvPort>,
    /// The registers of the source, in order, and the states.
    pub regs: Vec<SvReg>,
    /// What each register keeps.
    pub keeps: Vec<Keep>,
    /// The registers of each thread.
    pub states: Vec<ThreadStates>,
}
