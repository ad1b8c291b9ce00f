//! The ports and the registers of a process, each found by its names.
ghost use Rattle.std.specs.Prelude.{◌≡◌, ◌≤◌, ◌<◌, [], ◌∷◌, ◌++◌, false, length, map, position, IfOk, OnOk};
ghost use Rattle.std.specs.List.{list_any};
ghost use Rattle.core_term.specs.Limits.{most_ports, most_registers};
ghost use Rattle.core_file.specs.Scope.{is_among};
ghost use Rattle.expr_check.specs.Tables.{is_port_named, is_register_named, names_of};

use crate::room::push;
use anvil_lexer::Name;
use core_term::{CorePort, CoreReg};
use indexmap::IndexSet;
use std::alloc::{AllocError, Global};
use std::marker::Model;

/// Ports in order. There are few, so they are looked at one after the other.
#[derive(Drop)]
pub struct PortTable {
    ports: Vec<CorePort>,
}

impl Model for PortTable {
    ghost use Rattle.std.specs.Prelude.{List, length, ◌≤◌};
    ghost use Rattle.core_term.specs.Limits.{most_ports};
    ghost use Rattle.core_term.specs.declared.process.CorePort.{CorePort};

    ghost Value = { List CorePort };

    ghost view = { λ table. table.ports.items };

    ghost invariant = { λ table. length table.ports.items ≤ most_ports };
}

fn is_port_named(endpoint: &Name, message: &Name, port: &CorePort) -> bool
    ensures { result ≡ is_port_named endpoint.now message.now port.now }
{
    endpoint.bytes() == port.endpoint.bytes() && message.bytes() == port.message.bytes()
}

fn find_port(ports: &[CorePort], endpoint: &Name, message: &Name) -> Option<usize>
    ensures { result ≡ position (is_port_named endpoint.now message.now) ports.now }
{
    ports
        .iter()
        .position(|port| is_port_named(endpoint, message, port))
}

/// Registers in order.
#[derive(Drop)]
pub struct RegisterTable {
    registers: Vec<CoreReg>,
    names: IndexSet<Name>,
}

impl Model for RegisterTable {
    ghost use Rattle.std.specs.Prelude.{List, length, map, ◌≡◌, ◌≤◌};
    ghost use Rattle.core_term.specs.Limits.{most_registers};
    ghost use Rattle.core_term.specs.declared.process.CoreReg.{CoreReg};

    ghost Value = { List CoreReg };

    ghost view = { λ table. table.registers.items };

    // The keys are the names of the registers, in order, and there are few.
    ghost invariant = { λ table. (table.names.keys ≡ map (λ (register : CoreReg). register.name) table.registers.items) × (length table.registers.items ≤ most_registers) };
}

impl PortTable {
    /// No ports.
    pub fn new(alloc: Global) -> PortTable
        ensures { result ≡ [] }
    {
        PortTable {
            ports: Vec::new(alloc),
        }
    }

    /// The ports.
    pub fn ports(&self) -> &[CorePort]
        ensures ports { result.now ≡ self.now }
        ensures few { length self.now ≤ most_ports }
    {
        self.ports.as_slice()
    }

    /// The ports alone.
    pub fn into_ports(self) -> Vec<CorePort>
        ensures ports { result.items ≡ self }
        ensures few { length self ≤ most_ports }
    {
        self.ports
    }

    /// The number of the port of an endpoint and a message.
    pub fn find(&self, endpoint: &Name, message: &Name) -> Option<usize>
        ensures { result ≡ position (is_port_named endpoint.now message.now) self.now }
    {
        find_port(self.ports.as_slice(), endpoint, message)
    }

    /// Puts a port behind the others.
    pub fn push(&mut self, port: CorePort) -> Result<(), AllocError>
        requires { length self.old < most_ports }
        ensures { OnOk result (self.new ≡ self.old ++ port ∷ []) }
    {
        self.ports.push(port)?;
        Ok(())
    }
}

impl RegisterTable {
    /// No registers.
    pub fn new(alloc: Global) -> RegisterTable
        ensures { result ≡ [] }
    {
        RegisterTable {
            registers: Vec::new(alloc),
            names: IndexSet::new(alloc),
        }
    }

    /// The registers.
    pub fn registers(&self) -> &[CoreReg]
        ensures registers { result.now ≡ self.now }
        ensures few { length self.now ≤ most_registers }
    {
        self.registers.as_slice()
    }

    /// The registers alone.
    pub fn into_registers(self) -> Vec<CoreReg>
        ensures registers { result.items ≡ self }
        ensures few { length self ≤ most_registers }
    {
        let RegisterTable { registers, names } = self;
        drop(names);
        registers
    }

    /// Whether a register has the name.
    pub fn is_taken(&self, name: &Name) -> bool
        ensures taken { result ≡ list_any (is_register_named name.now) self.now }
        ensures among { result ≡ is_among (names_of self.now) name.now }
    {
        self.names.contains(name)
    }

    /// The number of the register of the name.
    pub fn find(&self, name: &Name) -> Option<usize>
        ensures { result ≡ position (is_register_named name.now) self.now }
    {
        self.names.get_index_of(name)
    }

    /// With one register more, of a name that none has.
    pub fn with(self, register: CoreReg) -> Result<RegisterTable, AllocError>
        requires fresh { list_any (is_register_named register.name) self ≡ false }
        requires room { length self < most_registers }
        ensures { IfOk result (λ table. table ≡ self ++ register ∷ []) }
    {
        let RegisterTable {
            mut registers,
            mut names,
        } = self;
        match names.insert(register.name.copy()) {
            Ok(_) => match push(&mut registers, register) {
                Ok(()) => Ok(RegisterTable { registers, names }),
                Err(refusal) => {
                    drop((registers, names));
                    Err(refusal)
                }
            },
            Err(refusal) => {
                drop((registers, names, register));
                Err(refusal.into())
            }
        }
    }
}
