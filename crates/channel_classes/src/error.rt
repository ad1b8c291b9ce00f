//! Why the classes of a file are refused, and where.
use thiserror::Error;

/// The first check of the classes of a file that fails. Each place is a byte offset in the source.
#[derive(Debug, Drop, Error)]
pub enum ClassErr {
    /// The name of a class or a message is no good one: it cannot stand in an emitted module.
    #[error("bad name at {at}")]
    BadName { at: u32 },
    /// An earlier class, or an earlier message of the class, has the name.
    #[error("name at {at} stands twice")]
    Twice { at: u32 },
    /// The width is 0 or past the limit.
    #[error("bad width at {at}")]
    BadWidth { at: u32 },
    /// The number of cycles of a life is 0 or past the limit.
    #[error("bad count at {at}")]
    BadCount { at: u32 },
    /// The life of a message ends with the message itself.
    #[error("own life at {at}")]
    OwnLife { at: u32 },
    /// The life of a message ends with a message that the class does not have.
    #[error("no such life at {at}")]
    NoSuchLife { at: u32 },
    /// Memory was refused.
    #[error("no memory")]
    NoMemory,
}
