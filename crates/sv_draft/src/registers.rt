//! The registers that have been read of a module, each found by its name.
ghost use Rattle.std.specs.Prelude.{◌≡◌, ◌+◌, not, nat_lt, ◌++◌, ◌∷◌, [], true, IfSome, MatchOption, MatchResult, None, Some, ◌<◌, length, map, position, set, slice_get};
ghost use Rattle.std.specs.List.{list_any};
ghost use Rattle.sv_tree.specs.Limits.{too_many};
ghost use Rattle.sv_tree.specs.WellFormed.{is_same_register};
ghost use Rattle.sv_tree.specs.declared.tree.SvReg.{SvReg};
ghost use Rattle.sv_draft.specs.Keys.{is_same_key, register_key};
ghost use Rattle.sv_lines.specs.Step.{state_count};
ghost use Rattle.sv_lines.specs.State.{reset_to};
ghost use Rattle.sv_draft.specs.declared.fault.Fault.TheVariants.{NoMemory};

use crate::fault::Fault;
use crate::key::RegisterKey;
use crate::room::push;
use anvil_bits::Bits;
use indexmap::IndexSet;
use std::alloc::Global;
use std::marker::Model;
use sv_tree::{SvReg, SvRegName};

/// The registers, each with a key by which it is found.
#[derive(Drop)]
pub struct RegisterTable {
    regs: Vec<SvReg>,
    names: IndexSet<RegisterKey>,
    states: u64,
}

impl Model for RegisterTable {
    ghost use Rattle.std.specs.Prelude.{List, length, map, ◌≡◌, ◌<◌};
    ghost use Rattle.sv_tree.specs.Limits.{too_many};
    ghost use Rattle.sv_tree.specs.declared.tree.SvReg.{SvReg};
    ghost use Rattle.sv_lines.specs.Step.{state_count};
    ghost use Rattle.sv_draft.specs.Keys.{register_key};

    ghost Value = { List SvReg };

    ghost view = { λ table. table.regs.items };

    // The keys are the names of the registers, in order, and `states` of these are states.
    ghost invariant = { λ table.
        (table.names.keys ≡ map (λ (reg : SvReg). register_key reg.name) table.regs.items)
        × (table.states ≡ state_count (map (λ (reg : SvReg). reg.name) table.regs.items))
        × (length table.regs.items < too_many) };
}

fn key_of(name: &SvRegName) -> RegisterKey
    ensures { result ≡ register_key name.now }
{
    match name {
        SvRegName::Source(name) => RegisterKey::Source(name.copy()),
        SvRegName::State(number) => RegisterKey::State(*number as u64),
    }
}

impl RegisterTable {
    /// No registers.
    pub fn new(alloc: Global) -> RegisterTable
        ensures { result ≡ [] }
    {
        RegisterTable {
            regs: Vec::new(alloc),
            names: IndexSet::new(alloc),
            states: 0,
        }
    }

    /// The registers.
    pub fn regs(&self) -> &[SvReg]
        ensures { result.now ≡ self.now }
    {
        self.regs.as_slice()
    }

    /// The registers alone.
    pub fn into_regs(self) -> Vec<SvReg>
        ensures { result.items ≡ self }
    {
        self.regs
    }

    /// The register at an index.
    pub fn get(&self, index: usize) -> Option<&SvReg>
        ensures { MatchOption result
            (slice_get self.now index ≡ None)
            (λ reg. slice_get self.now index ≡ Some reg.now) }
    {
        self.regs.get(index)
    }

    /// How many registers are states.
    pub fn states(&self) -> u64
        ensures states { result ≡ state_count (map (λ (reg : SvReg). reg.name) self.now) }
        ensures few { result < too_many }
    {
        self.states
    }

    /// The index of the register with this name.
    #[tactic(auto, using(crate::proofs::NamedPlaces::key_within))]
    pub fn index_of(&self, name: &RegisterKey) -> Option<u32>
        ensures index { result ≡
            position (is_same_key name.now) (map (λ (reg : SvReg). register_key reg.name) self.now) }
        ensures within { IfSome result (λ index. index < length self.now) }
    {
        match self.find(name) {
            Some(index) => Some(index as u32),
            None => None,
        }
    }

    fn find(&self, name: &RegisterKey) -> Option<usize>
        ensures index { result ≡
            position (is_same_key name.now) (map (λ (reg : SvReg). register_key reg.name) self.now) }
        ensures few { length self.now < too_many }
    {
        self.names.get_index_of(name)
    }

    fn contains(&self, name: &RegisterKey) -> bool
        ensures { result ≡ list_any (is_same_key name.now) (map (λ (reg : SvReg). register_key reg.name) self.now) }
    {
        self.names.contains(name)
    }

    /// Whether no register has this name.
    #[tactic(auto, using(crate::proofs::NamedPlaces::key_among))]
    pub fn is_fresh(&self, name: &SvRegName) -> bool
        ensures { result ≡ not (list_any (is_same_register name.now) (map (λ (reg : SvReg). reg.name) self.now)) }
    {
        !self.contains(&key_of(name))
    }

    /// Puts a register after the others, of a name that none has.
    pub fn add(&mut self, reg: SvReg) -> Result<(), Fault>
        requires fresh { not (list_any (is_same_register reg.name) (map (λ (reg : SvReg). reg.name) self.old)) ≡ true }
        requires room { nat_lt (length self.old + 1) too_many ≡ true }
        ensures { MatchResult result
            (λ _. self.new ≡ self.old ++ reg ∷ [])
            (λ fault. fault ≡ NoMemory) }
    {
        let count = self.regs.len();
        let name = key_of(&reg.name);
        let states = self.states + count_of(&reg.name);
        match push(&mut self.regs, reg) {
            Ok(()) => match self.names.insert(name) {
                Ok(_) => {
                    self.states = states;
                    Ok(())
                }
                Err(_) => {
                    self.regs.truncate(count);
                    Err(Fault::NoMemory)
                }
            },
            Err(fault) => Err(fault),
        }
    }

    /// Gives the register of this index its reset.
    pub fn set_reset(&mut self, index: usize, reset: Bits)
        requires { index < length self.old }
        ensures few { index < too_many }
        ensures reset { (reg : SvReg) → slice_get self.old index ≡ Some reg
            → self.new ≡ set self.old index (reset_to reg reset) }
    {
        self.regs[index].reset = reset;
    }
}

// How many states the name is.
fn count_of(name: &SvRegName) -> u64
    ensures { result ≡ state_count (name.now ∷ []) }
{
    match name {
        SvRegName::Source(_) => 0,
        SvRegName::State(_) => 1,
    }
}
