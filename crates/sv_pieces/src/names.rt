//! Names that may stand in a module.
ghost use Rattle.std.specs.Prelude.{◌≡◌, false, true, MatchOption};
ghost use Rattle.sv_tree.specs.WellFormed.{is_name};

use anvil_lexer::{LONGEST_NAME, Name, is_good_name};
use std::alloc::Global;

/// Whether these bytes are a name that may stand in a module.
pub fn is_name(text: &[u8]) -> bool
    ensures { result ≡ is_name text.now }
{
    is_good_name(text) && text.len() <= LONGEST_NAME
}

/// The name of these bytes, where they are one that may stand in a module.
pub fn good_name(alloc: Global, text: &[u8]) -> Option<Name>
    ensures { MatchOption result
        (is_name text.now ≡ false)
        (λ name. (is_name text.now ≡ true) × (name ≡ text.now)) }
{
    if is_name(text) {
        Some(Name::of(alloc, text))
    } else {
        None
    }
}
