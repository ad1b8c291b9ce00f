//! The modules of a text that are whole, whose names are found in a table.
ghost use Rattle.std.specs.Prelude.{◌≡◌, ◌++◌, ◌∷◌, [], false, map, bytes_eq, MatchResult};
ghost use Rattle.std.specs.List.{list_any};
ghost use Rattle.sv_tree.specs.Module.{Module};
ghost use Rattle.sv_draft.specs.declared.fault.Fault.TheVariants.{NoMemory};

use anvil_lexer::Name;
use indexmap::IndexSet;
use std::alloc::Global;
use std::marker::Model;
use sv_draft::{Fault, push};
use sv_tree::SvModule;

/// Whole modules, in order.
#[derive(Drop)]
pub struct ModuleTable {
    modules: Vec<SvModule>,
    names: IndexSet<Name>,
}

impl Model for ModuleTable {
    ghost use Rattle.std.specs.Prelude.{List, map, ◌≡◌};
    ghost use Rattle.sv_tree.specs.Module.{Module};

    ghost Value = { List Module };

    ghost view = { λ table. table.modules.items };

    // The keys are the names of the modules, in order.
    ghost invariant = { λ table. table.names.keys ≡ map (λ (tree : Module). tree.proc) table.modules.items };
}

impl ModuleTable {
    /// No modules.
    pub fn new(alloc: Global) -> ModuleTable
        ensures { result ≡ [] }
    {
        ModuleTable {
            modules: Vec::new(alloc),
            names: IndexSet::new(alloc),
        }
    }

    /// Whether a module has the name.
    pub fn is_taken(&self, name: &Name) -> bool
        ensures { result ≡ list_any (bytes_eq name.now) (map (λ (tree : Module). tree.proc) self.now) }
    {
        self.names.contains(name)
    }

    /// The modules alone.
    pub fn into_modules(self) -> Vec<SvModule>
        ensures { result.items ≡ self }
    {
        self.modules
    }

    /// Puts a module after the others, of a name that none has.
    pub fn add(&mut self, whole: SvModule) -> Result<(), Fault>
        requires { list_any (bytes_eq whole.proc) (map (λ (tree : Module). tree.proc) self.old) ≡ false }
        ensures { MatchResult result (λ _. self.new ≡ self.old ++ whole ∷ []) (λ fault. fault ≡ NoMemory) }
    {
        let count = self.modules.len();
        let name = whole.proc().copy();
        match push(&mut self.modules, whole) {
            Ok(()) => match self.names.insert(name) {
                Ok(_) => Ok(()),
                Err(_) => {
                    self.modules.truncate(count);
                    Err(Fault::NoMemory)
                }
            },
            Err(fault) => {
                drop(name);
                Err(fault)
            }
        }
    }
}
