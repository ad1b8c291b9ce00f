//! Why a list of tokens is no file, or is past a limit, and where.
use thiserror::Error;

/// What a file may have too many of.
#[derive(Clone, Copy, Debug, PartialEq, Eq)]
pub enum Counted {
    /// Classes of a file.
    Class,
    /// Messages of a class.
    Message,
    /// Processes of a file.
    Process,
    /// Endpoints of a process.
    Endpoint,
    /// Registers of a process.
    Register,
    /// Threads of a process.
    Thread,
    /// Acts of a thread.
    Act,
    /// Nodes of one expression.
    Expr,
}

/// The first refusal of a list of tokens. A place is a byte offset.
#[derive(Debug, Drop, Error)]
pub enum ParseErr {
    /// Exactly where the tokens before the one at `at` begin some file, and with it none.
    #[error("unexpected token at {at}")]
    Unexpected { at: u32 },
    /// Exactly where the bracket at `at` opens while as many are open as may be.
    #[error("too many open brackets at {at}")]
    TooDeep { at: u32 },
    /// Exactly where the token at `at` begins the thing that is one past a limit.
    #[error("too many at {at}")]
    TooMany { kind: Counted, at: u32 },
    /// Free: memory was wanting.
    #[error("no memory")]
    NoMemory,
}
