//! Growing values, which may want memory.
//!
//! What finds no room is let go here, by functions of any type: where a function lets go a value whose type holds trees
//! or tables, its proof takes the type apart, which is dear. For the same reason the other files let go what they read
//! by `drop`.
ghost use Rattle.std.specs.Prelude.{◌≡◌, ◌++◌, ◌∷◌, [], MatchResult, OnOk};
ghost use Rattle.core_file.specs.declared.error.NameErr.TheVariants.{NoMemory};

use core_file::NameErr;
use std::alloc::{AllocError, Global};

/// Puts an item behind the others.
pub fn push<T: Drop>(items: &mut Vec<T>, item: T) -> Result<(), AllocError>
    ensures { OnOk result (items.new.items ≡ items.old.items ++ item ∷ []) }
{
    match items.push(item) {
        Ok(()) => Ok(()),
        Err(refusal) => Err(refusal.into()),
    }
}

/// A value in a box of its own.
pub fn boxed<T: Drop>(alloc: Global, value: T) -> Result<Box<T>, NameErr>
    ensures { MatchResult result (λ held. held.value ≡ value) (λ fault. fault ≡ NoMemory) }
{
    match Box::new(alloc, value) {
        Ok(held) => Ok(held),
        Err(_) => Err(NameErr::NoMemory),
    }
}
