//! The timing rules, and the record that names a demand which fails.

/// A rule of the timing of a thread.
#[derive(Clone, Copy, Debug, PartialEq, Eq)]
pub enum Rule {
    /// A variable is made before it is read.
    V2,
    /// Of two sets of one register, one ends before the other begins.
    V3,
    /// Of two receives of one port, one begins in a cycle after the end of the other.
    V4,
    /// Of two sends of one port, one begins in a cycle after the life of what the other sent.
    V5,
    /// A received value is used within its life.
    V6,
    /// A register is not set between a read of it and a use of what was read.
    V7,
    /// An `if` does not decide again while its side is in use.
    V8,
}

/// A demand of a thread that does not hold: its rule and the sites of its two acts.
#[derive(Clone, Copy, Debug, PartialEq, Eq)]
pub struct Violation {
    pub rule: Rule,
    pub first: u32,
    pub second: u32,
}
