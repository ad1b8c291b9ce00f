//! Why a text is not that of modules.
use thiserror::Error;

/// Why a text is not that of modules.
#[derive(Debug, Drop, Error)]
pub enum SvErr {
    /// Exactly where no modules have the text: the place of the first line that cannot stand after the lines before it. A last piece
    /// without a line feed is such a line; where the text ends inside a module, the place is its length.
    #[error("not emitted, at {at}")]
    NotEmitted { at: u32 },
    /// Free: memory was wanting.
    #[error("no memory")]
    NoMemory,
}
