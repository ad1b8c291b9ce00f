//! Why the processes of a file are refused, and where.
use thiserror::Error;

/// The first check of the processes of a file that fails. Each place is a byte offset in the source.
#[derive(Debug, Drop, Error)]
pub enum NameErr {
    /// The name of a process, an endpoint or a register is no good one: it cannot stand in an emitted module.
    #[error("bad name at {at}")]
    BadName { at: u32 },
    /// An earlier process, or an earlier endpoint or register of the process, has the name.
    #[error("name at {at} stands twice")]
    Twice { at: u32 },
    /// No class, endpoint, message, register or variable in scope has the name.
    #[error("unknown name at {at}")]
    Unknown { at: u32 },
    /// The class of this endpoint gives the process more ports than there may be.
    #[error("too many ports at {at}")]
    TooManyPorts { at: u32 },
    /// A width is 0 or past the limit, or a slice reaches past its variable.
    #[error("bad width at {at}")]
    BadWidth { at: u32 },
    /// The number of a `cycle` is 0 or past the limit.
    #[error("bad count at {at}")]
    BadCount { at: u32 },
    /// A literal does not fit its width.
    #[error("literal too large at {at}")]
    LiteralTooLarge { at: u32 },
    /// Two widths that have to be one, in bits: of what takes a value and of the value, or of the first and the second.
    #[error("widths {left} and {right} differ at {at}")]
    WidthDiffers { at: u32, left: u32, right: u32 },
    /// Something without a value stands where a value is wanted.
    #[error("no value at {at}")]
    UnitUsed { at: u32 },
    /// A `send` of a message that the process receives, or a `recv` of one that it sends.
    #[error("wrong side at {at}")]
    WrongSide { at: u32 },
    /// An earlier thread names the endpoint.
    #[error("shared endpoint at {at}")]
    EndpointShared { at: u32 },
    /// An earlier thread sets the register.
    #[error("shared register at {at}")]
    RegisterShared { at: u32 },
    /// The turn of a thread would end before this act has taken a cycle.
    #[error("no tail at {at}")]
    NotTail { at: u32 },
    /// Memory was refused.
    #[error("no memory")]
    NoMemory,
}
