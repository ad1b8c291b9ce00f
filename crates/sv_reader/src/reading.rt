//! Reads a text line by line.
ghost use Rattle.std.specs.Prelude.{◌≡◌, ◌≢◌, ◌++◌, ◌∷◌, [], IfSome, List, MatchOption, MatchResult};
ghost use Rattle.sv_tree.specs.Module.{Module};
ghost use Rattle.sv_lines.specs.Good.{IsGood};
ghost use Rattle.sv_lines.specs.State.{between, clock_wanted, inside, start};
ghost use Rattle.sv_lines.specs.Step.{step};
ghost use Rattle.sv_draft.specs.SeenDraft.{draft_of};
ghost use Rattle.sv_draft.specs.Reached.{IsReading};
ghost use Rattle.sv_reader.specs.SeenState.{IsNext, state_of};
ghost use Rattle.sv_draft.specs.declared.fault.Fault.TheVariants.{NoMemory};

use crate::modules::ModuleTable;
use std::alloc::Global;
use sv_draft::{Draft, Fault, Reached, Wanted, draft_step};
use sv_pieces::opening;
use sv_tree::SvModule;

// The module that this line begins, of a name that none has.
fn begun(alloc: Global, whole: &ModuleTable, line: &[u8]) -> Result<Draft, Fault>
    ensures { IsReading
        (λ draft. inside whole.now (draft_of draft) clock_wanted)
        (step (between whole.now) line.now)
        result }
{
    let Some(name) = opening(alloc, line) else {
        return Err(Fault::CannotStand);
    };
    if whole.is_taken(&name) {
        drop(name);
        return Err(Fault::CannotStand);
    }
    Ok(Draft::new(alloc, name))
}

/// Where the reading stands between two lines: the modules that are whole, the one that is begun, and what is wanted next of it.
#[derive(Drop)]
pub struct Reading<'a> {
    pub whole: ModuleTable,
    pub begun: Option<Draft>,
    pub wanted: Wanted<'a>,
}

impl<'a> Reading<'a> {
    /// Before the first line.
    pub fn new(alloc: Global) -> Reading<'a>
        ensures { state_of result ≡ start }
    {
        Reading {
            whole: ModuleTable::new(alloc),
            begun: None,
            wanted: Wanted::Clock,
        }
    }

    /// Reads a line: it makes the text that has been read longer, or cannot stand behind it.
    pub fn step(&mut self, alloc: Global, line: &'a [u8]) -> Result<(), Fault>
        requires { IsGood (state_of self.old) }
        ensures { IsReading (λ _. state_of self.new) (step (state_of self.old) line.now) result }
    {
        match &mut self.begun {
            Some(draft) => match draft_step(alloc, draft, &self.wanted, line) {
                Ok(Reached::Onward(next)) => {
                    self.wanted = next;
                    Ok(())
                }
                Ok(Reached::Finished) => self.end(),
                Err(fault) => Err(fault),
            },
            None => match begun(alloc, &self.whole, line) {
                Ok(draft) => {
                    self.begun = Some(draft);
                    self.wanted = Wanted::Clock;
                    Ok(())
                }
                Err(fault) => Err(fault),
            },
        }
    }

    // A module is whole.
    fn end(&mut self) -> Result<(), Fault>
        requires { IfSome self.old.begun (IsNext self.old.whole) }
        ensures { MatchResult result
            (λ _. IfSome self.old.begun (λ draft. state_of self.new ≡ between (self.old.whole ++ draft_of draft ∷ [])))
            (λ fault. fault ≡ NoMemory) }
    {
        match self.begun.take() {
            Some(draft) => self.whole.add(draft.into_module()),
            None => Ok(()),
        }
    }

    /// The modules of a text that is read to its end between two of them.
    pub fn into_modules(self) -> Option<Vec<SvModule>>
        ensures { MatchOption result
            ((modules : List Module) → state_of self.entry ≢ between modules)
            (λ modules. state_of self.entry ≡ between modules.items) }
    {
        let Reading { whole, begun, .. } = self;
        match begun {
            None => Some(whole.into_modules()),
            Some(draft) => {
                drop(draft);
                drop(whole);
                None
            }
        }
    }
}
