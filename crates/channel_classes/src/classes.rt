//! The classes of a file, in a table by name.
ghost use Rattle.std.specs.Prelude.{◌≡◌, ◌≤◌, ◌⊎◌, ◌<◌, [], ◌∷◌, ◌++◌, None, Some, length, map, position, slice_get, bytes_eq, false, MatchResult};
ghost use Rattle.std.specs.List.{list_any};
ghost use Rattle.anvil_tree.specs.Few.{IsFew, most_parts};
ghost use Rattle.anvil_tree.specs.View.{file_of, class_of};
ghost use Rattle.first_check.specs.Check.{first_refusal};
ghost use Rattle.channel_classes.specs.Classes.{Class, classes_of, has_name, known_class, names_of};
ghost use Rattle.channel_classes.specs.ClassChecks.{checks_of_classes, class_checks};
ghost use Rattle.channel_classes.specs.declared.error.ClassErr.TheVariants.{NoMemory};

use crate::error::ClassErr;
use crate::message::{ClassMessage, read_messages};
use anvil_lexer::{Name, is_good_name};
use anvil_tree::{Chan, File, Item};
use indexmap::IndexMap;
use std::alloc::Global;
use std::marker::Model;

/// The classes of a file, in the order of the text. Contracts see them as a list.
#[derive(Drop)]
pub struct Classes {
    table: IndexMap<Name, Vec<ClassMessage>>,
}

impl Model for Classes {
    ghost use Rattle.std.specs.Prelude.{List, map, length, ◌≤◌};
    ghost use Rattle.anvil_tree.specs.Few.{most_parts};
    ghost use Rattle.channel_classes.specs.Classes.{Class};

    ghost Value = { List Class };

    ghost view = { λ classes. map (λ entry. record { name = entry.0; messages = entry.1.items }) classes.table.entries };

    ghost invariant = { λ classes. length classes.table.entries ≤ most_parts };
}

impl Classes {
    /// The number of the class that has the name, and None exactly where none has it.
    pub fn find(&self, name: &Name) -> Option<u32>
        ensures { result ≡ position (has_name name.now) self.now }
    {
        match self.table.get_index_of(name) {
            Some(class) => Some(class as u32),
            None => None,
        }
    }

    /// The messages of the class of a number, in the order of the text.
    pub fn messages(&self, class: u32) -> &[ClassMessage]
        requires { class < length self.now }
        ensures { slice_get (map (λ (known : Class). known.messages) self.now) class ≡ Some result.now }
    {
        match self.table.get_index(class as usize) {
            Some((_, messages)) => messages.as_slice(),
            None => unreachable!(),
        }
    }

    // No classes.
    fn new(alloc: Global) -> Classes
        ensures { result ≡ [] }
    {
        Classes {
            table: IndexMap::new(alloc),
        }
    }

    // Whether a class has the name.
    fn is_taken(&self, name: &Name) -> bool
        ensures { result ≡ list_any (bytes_eq name.now) (names_of self.now) }
    {
        self.table.contains_key(name)
    }

    // Puts one class more behind the others, of a name that none has.
    fn insert(&mut self, name: Name, messages: Vec<ClassMessage>) -> Result<(), ClassErr>
        requires fresh { list_any (bytes_eq name) (names_of self.old) ≡ false }
        requires room { length self.old < most_parts }
        ensures { MatchResult result
            (λ _. self.new ≡ self.old ++ record { name = name; messages = messages.items } ∷ [])
            (λ fault. fault ≡ NoMemory) }
    {
        match self.table.insert(name, messages) {
            Ok(_) => Ok(()),
            Err(_) => Err(ClassErr::NoMemory),
        }
    }

    // Puts one class more behind the others, or answers the first check of it that fails.
    fn read_class(&mut self, alloc: Global, class: &Chan) -> Result<(), ClassErr>
        requires few { length class.now.messages.items ≤ most_parts }
        requires room { length self.old < most_parts }
        ensures { MatchResult result
            (λ _. (first_refusal (class_checks (names_of self.old) (class_of class.now)) ≡ None)
            × (self.new ≡ self.old ++ known_class (class_of class.now) ∷ []))
            (λ fault. (fault ≡ NoMemory) ⊎ (first_refusal (class_checks (names_of self.old) (class_of class.now)) ≡ Some fault)) }
    {
        if !is_good_name(class.name.bytes()) {
            return Err(ClassErr::BadName { at: class.at });
        }
        if self.is_taken(&class.name) {
            return Err(ClassErr::Twice { at: class.at });
        }
        match read_messages(alloc, &class.messages) {
            Ok(messages) => self.insert(class.name.copy(), messages),
            Err(fault) => Err(fault),
        }
    }
}

/// The classes of a file, or the first check of them that fails.
///
/// Needs a file within the limits. Beside the checks it refuses only where memory is refused.
pub fn read_classes(alloc: Global, file: &File) -> Result<Classes, ClassErr>
    requires { IsFew (file_of file.now) }
    ensures { MatchResult result
        (λ classes. (first_refusal (checks_of_classes (file_of file.now)) ≡ None) × (classes ≡ classes_of (file_of file.now)))
        (λ fault. (fault ≡ NoMemory) ⊎ (first_refusal (checks_of_classes (file_of file.now)) ≡ Some fault)) }
{
    let mut classes = Classes::new(alloc);
    for item in &file.items {
        match item {
            Item::Proc(_) => {}
            Item::Chan(class) => match classes.read_class(alloc, class) {
                Ok(()) => {}
                Err(fault) => return Err(fault),
            },
        }
    }
    Ok(classes)
}
