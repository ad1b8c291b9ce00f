//! Why a source text has no tokens, and where.
use std::alloc::AllocError;
use thiserror::Error;

/// The first refusal of a source text. A place is a byte offset.
#[derive(Debug, Drop, Error)]
pub enum LexErr {
    /// Exactly where the source isn't UTF-8: `at` is the length of its longest valid front.
    #[error("not UTF-8 at {at}")]
    NotUtf8 { at: u32 },
    /// Exactly where no token and neither blank nor comment can begin at `at`.
    #[error("no token begins with the character at {at}")]
    BadChar { at: u32 },
    /// Exactly where the digits that begin at `at` make no number and no literal.
    #[error("bad number at {at}")]
    BadNumber { at: u32 },
    /// Exactly where the identifier that begins at `at` has more than 64 bytes.
    #[error("name of more than 64 bytes at {at}")]
    LongName { at: u32 },
    /// Free: memory was wanting.
    #[error("no memory")]
    NoMemory,
}
