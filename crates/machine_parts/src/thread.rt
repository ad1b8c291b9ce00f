//! The signals of a thread.
use crate::frame::ThreadStates;
use crate::plan::TurnPlan;
use module_nets::Signal;
use pulse_nets::Pulse;

/// The nets of a thread: the pulses of its nodes, and for each act the value that its expression has when it is read again, how
/// an `if` decides and which side it shows. A site that uses no value has none, and one that is no `if` has literal bits 0.
#[derive(Drop)]
pub struct ThreadNets {
    /// Whether a turn begins.
    pub begin: Signal,
    /// The pulse of each node.
    pub pulses: Vec<Pulse>,
    /// The value that each act uses, by its site.
    pub values: Vec<Signal>,
    /// How each `if` decides, by its site.
    pub decisions: Vec<Signal>,
    /// The side of the latest decision of each `if`, by its site.
    pub sides: Vec<Signal>,
}

/// A thread as it is drawn: its plan, its registers, its nets, and of each `send` whether it began last of its port.
#[derive(Drop)]
pub struct ThreadDraft<'a> {
    /// How its nodes are drawn.
    pub plan: &'a TurnPlan,
    /// Its registers.
    pub states: &'a ThreadStates,
    /// Its nets.
    pub nets: ThreadNets,
    /// Whether each `send` began last of its port, by its site; a literal bit 0 for other acts.
    pub newest: Vec<Signal>,
}
