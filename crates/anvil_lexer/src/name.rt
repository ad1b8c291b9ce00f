//! A name that lies in the value itself, so that making and copying one takes no memory.
//!
//! Contracts see a name as the list of its bytes. The type keeps that they are 1 to 64 bytes of UTF-8, and that none of them
//! lies in an allocation.
ghost use Rattle.std.specs.Prelude.{◌≡◌, ◌≤◌, length, nat_eq};
ghost use Rattle.std.specs.Str.{IsUtf8};
ghost use Rattle.std.specs.Hash as fed;
ghost use Rattle.std.specs.Cmp.Lexicographic.{pointwise, nat_list_eq_equiv};
ghost use Rattle.std.specs.Cmp.{partial_equiv_from_equiv};
ghost use Rattle.std.specs.Cmp.Rules.{hashing};
ghost use Rattle.std.proofs.Common.{rules};
ghost use Rattle.anvil_lexer.specs.Name.{longest_name};

use smallvec::SmallVec;
use std::alloc::Global;
use std::hash::{Hash, Hasher};
use std::marker::Model;
use std::{fmt, str};

/// The most bytes that a name may have.
pub const LONGEST_NAME: usize = 64;

/// A name of 1 to [`LONGEST_NAME`] bytes of UTF-8. Contracts see it as the list of its bytes.
///
/// It is the key of maps: two names are equal, and feed a hasher alike, exactly where their bytes are the same.
#[derive(Drop)]
pub struct Name {
    text: SmallVec<u8, LONGEST_NAME>,
}

impl Model for Name {
    ghost use Rattle.std.specs.Prelude.{List, ℕ, length, ◌≤◌, ◌≡◌};
    ghost use Rattle.std.specs.Str.{IsUtf8};
    ghost use Rattle.anvil_lexer.specs.Name.{longest_name};

    ghost Value = { List ℕ };

    ghost view = { λ n. n.text.items };

    // A capacity of no more than the places in the value says that nothing was allocated.
    ghost invariant = { λ n. (1 ≤ length n.text.items) × (length n.text.items ≤ longest_name) × IsUtf8 n.text.items × (n.text.capacity ≡ longest_name) };
}

impl Name {
    /// The name with these bytes. The allocator is kept for the type alone: no memory is taken from it.
    pub fn of(alloc: Global, text: &[u8]) -> Name
        requires some { 1 ≤ length text.now }
        requires few { length text.now ≤ longest_name }
        requires utf8 { IsUtf8 text.now }
        ensures { result ≡ text.now }
    {
        Name {
            text: SmallVec::from_slice(alloc, text).unwrap(),
        }
    }

    /// The bytes of the name.
    pub fn bytes(&self) -> &[u8]
        ensures bytes { result.now ≡ self.now }
        ensures some { 1 ≤ length self.now }
        ensures few { length self.now ≤ longest_name }
        ensures utf8 { IsUtf8 self.now }
    {
        self.text.as_slice()
    }

    /// A name with the same bytes.
    pub fn copy(&self) -> Name
        ensures { result ≡ self.now }
    {
        Name::of(*self.text.allocator(), self.bytes())
    }
}

impl PartialEq for Name {
    ghost eq = { pointwise nat_eq };

    ghost laws = { partial_equiv_from_equiv nat_list_eq_equiv };

    fn eq(&self, other: &Name) -> bool {
        self.bytes() == other.bytes()
    }
}

impl Eq for Name {
    ghost laws = { nat_list_eq_equiv };
}

impl Hash for Name {
    ghost hash_input = { fed.slice fed.u8 };

    ghost respects_eq = { Prim.search (hashing, rules) };

    fn hash<H: Hasher>(&self, state: &mut H) {
        self.bytes().hash(state);
    }
}

/// The name as Rust writes a text in quotes.
impl fmt::Debug for Name {
    fn fmt<W: fmt::Write>(&self, f: &mut fmt::Formatter<W>) -> fmt::Result {
        let text = str::from_utf8(self.bytes()).unwrap();
        fmt::Debug::fmt(&text, f)
    }
}
