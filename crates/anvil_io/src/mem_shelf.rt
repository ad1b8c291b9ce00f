//! A shelf over memory, whose loads fail as its maker asked.
ghost use Rattle.std.specs.Prelude.{◌≡◌, ◌≤◌, [], List, ℕ, length, IfSome, OnOk, OnErr, IsErrOf, IsTrue, ◌↔◌};
ghost use Rattle.std.specs.Option.{option_map};
ghost use Rattle.anvil_io.specs.Causes.{FaultHasCause, LengthHasCause};
ghost use Rattle.anvil_io.specs.Memory.{first_named, load_fails, after_load};
ghost use Rattle.anvil_io.specs.Entries.{entries_of};

use crate::mem_sink::is_among;
use crate::{LoadErr, Shelf};
use std::marker::Model;

/// A shelf over memory, which holds the first entry of each name. Every name may be asked for.
///
/// Its loads are numbered from 0. A load is a fault exactly where its number is in a list or no entry has the name.
#[derive(Drop)]
pub struct MemShelf {
    files: Vec<(String, Vec<u8>)>,
    failing: Vec<u32>,
    loads: u64,
    faults: u64,
    taken: u64,
}

impl Model for MemShelf {
    ghost use Rattle.anvil_io.specs.Memory.{ShelfState};
    ghost use Rattle.anvil_io.specs.Entries.{entries_of};

    ghost Value = { ShelfState };

    ghost view = { λ s. record { files = entries_of s.files.items; failing = s.failing.items; loads = s.loads; faults = s.faults; taken = s.taken } };
}

impl MemShelf {
    /// A shelf of these entries, each a name and its bytes, whose loads fail at these numbers.
    pub fn new(files: Vec<(String, Vec<u8>)>, failing: Vec<u32>) -> MemShelf
        ensures { result ≡ record { files = entries_of files.items; failing = failing.items; loads = 0; faults = 0; taken = 0 } }
    {
        MemShelf {
            files,
            failing,
            loads: 0,
            faults: 0,
            taken: 0,
        }
    }
}

impl Shelf for MemShelf {
    ghost told = { λ s name. first_named s.files name };

    ghost faults = { λ s. s.faults };

    ghost taken = { λ s. s.taken };

    ghost may_ask = { λ _ _. Unit {0} };

    fn load(&mut self, name: &str, limit: u32, into: &mut Vec<u8>) -> Result<(), LoadErr>
        requires empty { into.old.items ≡ [] }
        ensures bytes { OnOk result (IfSome (first_named self.old.files name.now) (λ bytes. into.new.items ≡ bytes)) }
        ensures within { OnOk result (length into.new.items ≤ limit) }
        ensures emptied { OnErr result (into.new.items ≡ []) }
        ensures fault { FaultHasCause self.old.faults self.new.faults result }
        ensures too_long { LengthHasCause (first_named self.old.files name.now) limit self.old.taken self.new.taken result }
        ensures kept { (n : List ℕ) → first_named self.new.files n ≡ first_named self.old.files n }
        ensures names { (n : List ℕ) → (Unit {0} ↔ Unit {0}) }
        ensures exactly { IsErrOf result LoadErr.Fault ↔ IsTrue (load_fails self.old name.now) }
        ensures state { self.new ≡ after_load self.old name.now limit }
    {
        let number = self.loads;
        self.loads = number.saturating_add(1);
        let fails = is_among(number, &self.failing);
        let found = find_file(&self.files, name);
        match found {
            Some(bytes) if !fails => {
                let takes = bytes.len().min(limit as usize + 1);
                self.taken = self.taken.saturating_add(takes as u64);
                if takes > limit as usize {
                    Err(LoadErr::TooLong)
                } else if into.extend_from_slice(bytes).is_err() {
                    Err(LoadErr::NoMemory)
                } else {
                    Ok(())
                }
            }
            _ => {
                self.faults = self.faults.saturating_add(1);
                Err(LoadErr::Fault)
            }
        }
    }
}

// The bytes of the first entry of a name.
fn find_file<'a>(files: &'a [(String, Vec<u8>)], name: &str) -> Option<&'a Vec<u8>>
    ensures { option_map (λ v. v.now.items) result ≡ first_named (entries_of files.now) name.now }
{
    let mut rest = files;
    while let [(key, bytes), after @ ..] = rest {
        if key.as_str() == name {
            return Some(bytes);
        }
        rest = after;
    }
    None
}
