//! What comes in on a port in a cycle.
ghost use Rattle.std.specs.Prelude.{◌≡◌, ◌<◌, IsTrue, Some, length, map};
ghost use Rattle.core_term.specs.ProcessView.{port_of};
ghost use Rattle.core_term.specs.Rows.{nth_cell, cells_fit, valid_in, ack_in};
ghost use Rattle.sim_laws.specs.Advance.{number_in};

use crate::now::Now;
use anvil_bits::Bits;
use core_term::InCell;

/// What comes in on a port.
fn cell(now: &Now, port: u32) -> InCell
    requires port { port < length now.now.ports.now }
    requires cells { IsTrue (cells_fit (map port_of now.now.ports.now) now.now.cells.now) }
    ensures { nth_cell now.now.cells.now port ≡ Some result }
{
    now.cells[port as usize]
}

/// What comes in on the `valid` of a port.
pub fn valid(now: &Now, port: u32) -> bool
    requires port { port < length now.now.ports.now }
    requires cells { IsTrue (cells_fit (map port_of now.now.ports.now) now.now.cells.now) }
    ensures { result ≡ valid_in (nth_cell now.now.cells.now port) }
{
    match cell(now, port) {
        InCell::Received { valid, .. } => valid,
        InCell::Sent { .. } => false,
    }
}

/// What comes in on the `ack` of a port.
pub fn ack(now: &Now, port: u32) -> bool
    requires port { port < length now.now.ports.now }
    requires cells { IsTrue (cells_fit (map port_of now.now.ports.now) now.now.cells.now) }
    ensures { result ≡ ack_in (nth_cell now.now.cells.now port) }
{
    match cell(now, port) {
        InCell::Received { .. } => false,
        InCell::Sent { ack } => ack,
    }
}

/// What comes in on the `data` of a port.
pub fn data(now: &Now, port: u32) -> Bits
    requires port { port < length now.now.ports.now }
    requires cells { IsTrue (cells_fit (map port_of now.now.ports.now) now.now.cells.now) }
    ensures { result ≡ number_in (nth_cell now.now.cells.now port) }
{
    match cell(now, port) {
        InCell::Received { value, .. } => value,
        InCell::Sent { .. } => Bits::new(1, 0),
    }
}
