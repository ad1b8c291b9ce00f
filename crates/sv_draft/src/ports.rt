//! The ports that have been read of a module, each found by its names.
ghost use Rattle.std.specs.Prelude.{◌≡◌, ◌+◌, ◌&&◌, not, nat_lt, ◌++◌, ◌∷◌, [], true, IfSome, MatchResult, ◌<◌, length, position};
ghost use Rattle.std.specs.List.{list_any};
ghost use Rattle.sv_tree.specs.Limits.{too_many};
ghost use Rattle.sv_tree.specs.WellFormed.{is_port_name, is_same_port};
ghost use Rattle.sv_lines.specs.Operands.{is_named};
ghost use Rattle.sv_draft.specs.declared.fault.Fault.TheVariants.{NoMemory};

use crate::fault::Fault;
use crate::room::{has_room, push};
use anvil_lexer::Name;
use indexmap::IndexSet;
use std::alloc::Global;
use std::marker::Model;
use sv_pieces::{good_name, is_name};
use sv_tree::SvPort;

/// The message ports, each with a key by which it is found.
#[derive(Drop)]
pub struct PortTable {
    ports: Vec<SvPort>,
    names: IndexSet<(Name, Name)>,
}

impl Model for PortTable {
    ghost use Rattle.std.specs.Prelude.{List, length, map, true, ◌≡◌, ◌<◌};
    ghost use Rattle.std.specs.List.{list_all};
    ghost use Rattle.sv_tree.specs.declared.tree.SvPort.{SvPort};
    ghost use Rattle.sv_tree.specs.Limits.{too_many};
    ghost use Rattle.sv_tree.specs.WellFormed.{is_port_name};

    ghost Value = { List SvPort };

    ghost view = { λ table. table.ports.items };

    // The keys are the names of the ports, in order, and these are good; and there are few.
    ghost invariant = { λ table.
        (table.names.keys ≡ map (λ (port : SvPort). (port.endpoint, port.message)) table.ports.items)
        × (list_all is_port_name table.ports.items ≡ true)
        × (length table.ports.items < too_many) };
}

impl PortTable {
    /// No ports.
    pub fn new(alloc: Global) -> PortTable
        ensures { result ≡ [] }
    {
        PortTable {
            ports: Vec::new(alloc),
            names: IndexSet::new(alloc),
        }
    }

    /// The ports.
    pub fn ports(&self) -> &[SvPort]
        ensures { result.now ≡ self.now }
    {
        self.ports.as_slice()
    }

    /// The ports alone.
    pub fn into_ports(self) -> Vec<SvPort>
        ensures { result.items ≡ self }
    {
        self.ports
    }

    /// The index of the port with these names.
    #[tactic(auto, using(crate::proofs::NamedPlaces::position_within))]
    pub fn index_of(&self, alloc: Global, endpoint: &[u8], message: &[u8]) -> Option<u32>
        ensures index { result ≡ position (is_named endpoint.now message.now) self.now }
        ensures within { IfSome result (λ index. index < length self.now) }
    {
        match self.find(alloc, endpoint, message) {
            Some(index) => Some(index as u32),
            None => None,
        }
    }

    fn find(&self, alloc: Global, endpoint: &[u8], message: &[u8]) -> Option<usize>
        ensures index { result ≡ position (is_named endpoint.now message.now) self.now }
        ensures few { length self.now < too_many }
    {
        match good_name(alloc, endpoint) {
            Some(endpoint) => match good_name(alloc, message) {
                Some(message) => {
                    let key = (endpoint, message);
                    let found = self.names.get_index_of(&key);
                    drop(key);
                    found
                }
                None => {
                    drop(endpoint);
                    None
                }
            },
            None => None,
        }
    }

    /// Whether the port has good names that none has, and leaves room.
    pub fn may_add(&self, port: &SvPort) -> bool
        ensures { result ≡
            (is_port_name port.now && not (list_any (is_same_port port.now) self.now)
            && nat_lt (length self.now + 1) too_many) }
    {
        is_name(port.endpoint.bytes())
            && is_name(port.message.bytes())
            && !self.contains(port)
            && has_room(self.ports.len())
    }

    fn contains(&self, port: &SvPort) -> bool
        ensures { result ≡ list_any (is_same_port port.now) self.now }
    {
        let key = (port.endpoint.copy(), port.message.copy());
        let found = self.names.contains(&key);
        drop(key);
        found
    }

    /// Puts a port after the others, which has a good name that none has.
    pub fn add(&mut self, port: SvPort) -> Result<(), Fault>
        requires { (is_port_name port && not (list_any (is_same_port port) self.old)
            && nat_lt (length self.old + 1) too_many) ≡ true }
        ensures { MatchResult result
            (λ _. self.new ≡ self.old ++ port ∷ [])
            (λ fault. fault ≡ NoMemory) }
    {
        let count = self.ports.len();
        let name = (port.endpoint.copy(), port.message.copy());
        match push(&mut self.ports, port) {
            Ok(()) => match self.names.insert(name) {
                Ok(_) => Ok(()),
                Err(_) => {
                    self.ports.truncate(count);
                    Err(Fault::NoMemory)
                }
            },
            Err(fault) => Err(fault),
        }
    }
}
