//! The module of a process in a text of modules.
ghost use Rattle.std.specs.Prelude.{◌≡◌, ◌≢◌, ◌⊎◌, ◌≤◌, ◌<◌, ◌^◌, List, ℕ, None, Some, get_or, length, IfErr, IfOk, MatchOption, MatchResult};
ghost use Rattle.core_term.specs.AcceptedFile.{process_in};
ghost use Rattle.sv_tree.specs.Module.{Module};
ghost use Rattle.tool_stages.specs.RunModule.{IsModuleIn, IsModuleRefused, module_named};

use core_term::CoreProc;
use module_log::matches;
use std::alloc::Global;
use sv_reader::{SvErr, SvModule, read_modules};
use tool_answers::{Code, Refusal};

/// A module among those of a text.
#[derive(Drop)]
pub(crate) struct Found {
    modules: Vec<SvModule>,
    index: usize,
}

impl Found {
    /// The module.
    pub(crate) fn module(&self) -> &SvModule
        requires { self.now.index < length self.now.modules.items }
        ensures { (default : Module) → result.now ≡ get_or self.now.modules.items self.now.index default }
    {
        &self.modules[self.index]
    }
}

// Where the first module of the name stands.
fn find_module(modules: &[SvModule], name: &[u8]) -> Option<usize>
    ensures { MatchOption result (module_named name.now modules.now ≡ None)
        (λ index. (index < length modules.now) × ((default : Module)
        → module_named name.now modules.now ≡ Some (get_or modules.now index default))) }
{
    for index in 0..modules.len() {
        if modules[index].proc().bytes() == name {
            return Some(index);
        }
    }
    None
}

/// The module of the name in the text, with the ports and registers of the process, or why there is none.
pub(crate) fn module_of_text(
    alloc: Global,
    proc: &CoreProc,
    name: &[u8],
    text: &[u8],
) -> Result<Found, Refusal>
    requires { length text.now ≤ 2 ^ 24 }
    ensures inside { IfOk result (λ found. found.index < length found.modules.items) }
    ensures found { IfOk result (λ found. (tree : Module) → tree ≡ get_or found.modules.items found.index tree
        → IsModuleIn (process_in proc.now)
        name.now text.now tree) }
    ensures refused { IfErr result (λ refusal. refusal ≢ Refusal.NoMemory
        → IsModuleRefused (process_in proc.now)
        name.now text.now refusal) }
{
    let modules = match read_modules(alloc, text) {
        Ok(modules) => modules,
        Err(SvErr::NotEmitted { at }) => return Err(Refusal::Placed {
            code: Code::NotEmitted,
            at,
        }),
        Err(SvErr::NoMemory) => return Err(Refusal::NoMemory),
    };
    let Some(index) = find_module(&modules, name) else {
        return Err(Refusal::Bare {
            code: Code::NoModule,
        });
    };
    if matches(proc, &modules[index]) {
        Ok(Found { modules, index })
    } else {
        Err(Refusal::Bare {
            code: Code::OtherPorts,
        })
    }
}
