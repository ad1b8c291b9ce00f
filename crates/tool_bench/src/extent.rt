//! What a call left, beside what is wanted.
use anvil_tool::Status;

/// How bytes stand to those that are wanted.
#[derive(Clone, Copy, Debug, PartialEq, Eq)]
pub enum Extent {
    /// They are those.
    Whole,
    /// They are a front part of those, and not all.
    Front,
    /// They are others.
    Other,
}

/// How a call ended.
#[derive(Clone, Copy, Debug, PartialEq, Eq)]
pub struct Ended {
    pub status: Status,
    pub out: Extent,
    pub err: Extent,
    /// How many bytes stand on `out`.
    pub out_length: usize,
    /// How many bytes stand on `err`.
    pub err_length: usize,
}

/// How bytes stand to those that are wanted.
pub fn extent_of(had: &[u8], wanted: &[u8]) -> Extent {
    if had == wanted {
        Extent::Whole
    } else if wanted.starts_with(had) {
        Extent::Front
    } else {
        Extent::Other
    }
}
