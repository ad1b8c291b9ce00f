//! The most bytes of each file that is loaded.

/// Of a source file.
pub(crate) const LONGEST_FILE: u32 = 1048576;

/// Of a text of modules.
pub(crate) const LONGEST_TEXT: u32 = 16777216;

/// Of a stimulus.
pub(crate) const LONGEST_STIMULUS: u32 = 16777216;
