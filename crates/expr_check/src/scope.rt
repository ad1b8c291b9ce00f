//! What is known where an act stands: the endpoints, ports and registers of the process, and the acts that are made.
ghost use Rattle.std.specs.Prelude.{◌≡◌, false, true, MatchOption};
ghost use Rattle.core_term.specs.Process.{nth_port};
ghost use Rattle.core_file.specs.Scope.{is_among, is_bound, is_known_port, number_among, port_number, site_of};
ghost use Rattle.expr_check.specs.Known.{scope_of};

use crate::made::{Made, find_site, find_width};
use crate::tables::{PortTable, RegisterTable};
use anvil_lexer::Name;
use indexmap::IndexSet;

/// The parts of a process that have names.
#[derive(Drop)]
pub struct Known {
    pub endpoints: IndexSet<Name>,
    pub ports: PortTable,
    pub registers: RegisterTable,
}

/// The parts of the process, and the acts that are made, innermost first.
#[derive(Clone, Copy, Drop)]
pub struct Scope<'a> {
    pub known: &'a Known,
    pub made: &'a Made<'a>,
}

/// A register: its number in the process, and its width in bits.
#[derive(Clone, Copy, Drop)]
pub struct RegisterPlace {
    pub number: u32,
    pub width: u8,
}

/// A port: its number in the process, its width in bits, and whether it is received.
#[derive(Clone, Copy, Drop)]
pub struct PortPlace {
    pub number: u32,
    pub width: u8,
    pub received: bool,
}

impl Scope<'_> {
    /// The site of the act that a word stands for: the innermost one that is bound to it.
    #[tactic(auto, unfolding(crate::specs::Known::scope_of))]
    pub fn site(&self, name: &Name) -> Option<u32>
        ensures { MatchOption result
            (is_bound (scope_of self.now).variables name.now ≡ false)
            (λ site. (is_bound (scope_of self.now).variables name.now ≡ true)
            × (site ≡ site_of (scope_of self.now).variables name.now)) }
    {
        find_site(self.made, name)
    }

    /// The width of the value of the act of a site.
    #[tactic(auto, unfolding(crate::specs::Known::scope_of))]
    pub fn width(&self, site: u32) -> u8
        ensures { result ≡ (scope_of self.now).widths.variables site }
    {
        find_width(self.made, site)
    }

    /// The register of the name.
    #[tactic(auto, unfolding(crate::specs::Known::scope_of))]
    pub fn register(&self, name: &Name) -> Option<RegisterPlace>
        ensures { MatchOption result
            (is_among (scope_of self.now).registers name.now ≡ false)
            (λ found. (is_among (scope_of self.now).registers name.now ≡ true)
            × (found.number ≡ number_among (scope_of self.now).registers name.now)
            × (found.width ≡ (scope_of self.now).widths.registers (number_among (scope_of self.now).registers name.now))) }
    {
        match self.known.registers.find(name) {
            None => None,
            Some(number) => {
                let registers = self.known.registers.registers();
                let width = registers[number].width;
                Some(RegisterPlace {
                    number: number as u32,
                    width,
                })
            }
        }
    }

    /// Whether an endpoint has the name.
    #[tactic(auto, unfolding(crate::specs::Known::scope_of))]
    pub fn has_endpoint(&self, name: &Name) -> bool
        ensures { result ≡ is_among (scope_of self.now).endpoints name.now }
    {
        self.known.endpoints.contains(name)
    }

    /// The port of an endpoint and a message.
    #[tactic(auto, unfolding(crate::specs::Known::scope_of))]
    pub fn port(&self, endpoint: &Name, message: &Name) -> Option<PortPlace>
        ensures { MatchOption result
            (is_known_port (scope_of self.now) endpoint.now message.now ≡ false)
            (λ found. (is_known_port (scope_of self.now) endpoint.now message.now ≡ true)
            × (found.number ≡ port_number (scope_of self.now) endpoint.now message.now)
            × (found.width ≡ (scope_of self.now).widths.ports (port_number (scope_of self.now) endpoint.now message.now))
            × (found.received ≡ (nth_port (scope_of self.now).ports (port_number (scope_of self.now) endpoint.now message.now)).received)) }
    {
        match self.known.ports.find(endpoint, message) {
            None => None,
            Some(number) => {
                let ports = self.known.ports.ports();
                let width = ports[number].width;
                let received = ports[number].received;
                Some(PortPlace {
                    number: number as u32,
                    width,
                    received,
                })
            }
        }
    }
}
