//! The wires of a port.

/// A wire of a port.
#[derive(Clone, Copy, Debug, PartialEq, Eq)]
pub enum Wire {
    Data,
    Valid,
    Ack,
}
