//! The nets that have been read of a module.
ghost use Rattle.std.specs.Prelude.{◌≡◌, ◌+◌, ◌++◌, ◌∷◌, ◌<◌, [], MatchResult, length, nat_lt, true};
ghost use Rattle.sv_tree.specs.Limits.{too_many};
ghost use Rattle.sv_draft.specs.declared.fault.Fault.TheVariants.{NoMemory};

use crate::fault::Fault;
use crate::room::push;
use std::alloc::Global;
use std::marker::Model;
use sv_tree::{SvNet, SvOp};

/// The nets, in order.
#[derive(Drop)]
pub struct NetList {
    nets: Vec<SvNet>,
}

impl Model for NetList {
    ghost use Rattle.std.specs.Prelude.{List, length, ◌<◌};
    ghost use Rattle.sv_tree.specs.Limits.{too_many};
    ghost use Rattle.sv_tree.specs.declared.tree.SvNet.{SvNet};

    ghost Value = { List SvNet };

    ghost view = { λ list. list.nets.items };

    ghost invariant = { λ list. length list.nets.items < too_many };
}

impl NetList {
    /// No nets.
    pub fn new(alloc: Global) -> NetList
        ensures { result ≡ [] }
    {
        NetList {
            nets: Vec::new(alloc),
        }
    }

    /// The nets.
    pub fn nets(&self) -> &[SvNet]
        ensures nets { result.now ≡ self.now }
        ensures few { length self.now < too_many }
    {
        self.nets.as_slice()
    }

    /// The nets alone.
    pub fn into_nets(self) -> Vec<SvNet>
        ensures { result.items ≡ self }
    {
        self.nets
    }

    /// Puts a net after the others.
    pub fn add(&mut self, width: u8, op: SvOp) -> Result<(), Fault>
        requires { nat_lt (length self.old + 1) too_many ≡ true }
        ensures { MatchResult result
            (λ _. self.new ≡ self.old ++ record { width = width; op = op } ∷ [])
            (λ fault. fault ≡ NoMemory) }
    {
        push(&mut self.nets, SvNet { width, op })
    }
}
