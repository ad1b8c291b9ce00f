//! What the tests of this crate share. Each test is a table: a helper takes what is owned, lets it go and answers a small value.
ghost use Rattle.std.specs.Prelude.{◌≡◌, ◌++◌, ◌∷◌, [], IfOk, OnOk};

use std::alloc::{AllocError, Global};

/// Whether a text was made, and is the one that is wanted.
pub fn is_text(made: Result<String, AllocError>, wanted: &[u8]) -> bool {
    match made {
        Ok(text) => {
            let same = text.as_bytes() == wanted;
            drop(text);
            same
        }
        Err(_) => false,
    }
}

/// Puts a value behind the others.
pub fn push<T: Drop>(values: &mut Vec<T>, value: T) -> Result<(), AllocError>
    ensures { OnOk result (values.new.items ≡ values.old.items ++ value ∷ []) }
{
    match values.push(value) {
        Ok(()) => Ok(()),
        Err(_) => Err(AllocError),
    }
}

/// A value in a box of its own.
pub fn boxed<T: Drop>(alloc: Global, value: T) -> Result<Box<T>, AllocError>
    ensures { IfOk result (λ held. held.value ≡ value) }
{
    match Box::new(alloc, value) {
        Ok(held) => Ok(held),
        Err(_) => Err(AllocError),
    }
}
