//! Room for one item more.
ghost use Rattle.std.specs.Prelude.{◌≡◌, ◌++◌, ◌∷◌, [], MatchResult};
ghost use Rattle.sv_lines.specs.Step.{has_room};
ghost use Rattle.sv_draft.specs.declared.fault.Fault.TheVariants.{NoMemory};

use crate::fault::Fault;

/// Puts an item after the others.
pub fn push<T: Drop>(items: &mut Vec<T>, item: T) -> Result<(), Fault>
    ensures { MatchResult result
        (λ _. items.new.items ≡ items.old.items ++ item ∷ [])
        (λ fault. (items.new.items ≡ items.old.items) × (fault ≡ NoMemory)) }
{
    match items.push(item) {
        Ok(()) => Ok(()),
        Err(_) => Err(Fault::NoMemory),
    }
}

/// Whether one item more leaves room: there are fewer than 2^32 of each kind.
pub fn has_room(count: usize) -> bool
    ensures { result ≡ has_room count }
{
    count < 0xffff_ffff
}
