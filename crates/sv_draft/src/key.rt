//! The names of registers as keys of a table.
use anvil_lexer::Name;

/// The name of a register as a key.
#[derive(PartialEq, Eq, Hash, Drop)]
pub enum RegisterKey {
    Source(Name),
    State(u64),
}
