//! Why a line is not read.

/// Why a line is not read: it cannot stand after the lines before it, or memory was wanting.
#[derive(Clone, Copy)]
pub enum Fault {
    CannotStand,
    NoMemory,
}
