//! Rows: what comes in and what goes out in a cycle.
ghost use Rattle.std.specs.Prelude.{◌≡◌, ◌≤◌, ◌^◌, IfOk, IsTrue, map};
ghost use Rattle.std.specs.List.{list_all};
ghost use Rattle.core_term.specs.ProcessView.{port_of, register_of};
ghost use Rattle.core_term.specs.Sized.{port_fits, register_fits};
ghost use Rattle.core_term.specs.Rows.{zero_cell, zero_register};

use crate::{CorePort, CoreProc, CoreReg};
use anvil_bits::Bits;
use std::alloc::{AllocError, Global};

/// What comes in on a port in a cycle. The value of a received port is what its `data` wire carries, whether it is
/// valid or not.
#[derive(Clone, Copy, Debug, PartialEq, Eq)]
pub enum InCell {
    Received { valid: bool, value: Bits },
    Sent { ack: bool },
}

/// A cell for each port of a process, in port order.
#[derive(Drop)]
pub struct Row {
    pub cells: Vec<InCell>,
}

/// What goes out on a port in a cycle.
#[derive(Clone, Copy, Debug, PartialEq, Eq)]
pub enum OutCell {
    Received { ack: bool },
    Sent { valid: bool, value: Bits },
}

/// A cell for each port of a process, in port order, and what each register shows.
#[derive(Drop)]
pub struct OutRow {
    pub cells: Vec<OutCell>,
    pub regs: Vec<Bits>,
}

impl OutRow {
    /// A row of zeros that fits the process.
    ///
    /// Refuses only where memory is refused.
    pub fn for_proc(alloc: Global, proc: &CoreProc) -> Result<OutRow, AllocError>
        ensures cells { IfOk result (λ row. row.cells.items ≡ map zero_cell (map port_of proc.now.ports.items)) }
        ensures registers { IfOk result
            (λ row. row.regs.items ≡ map zero_register (map register_of proc.now.regs.items)) }
    {
        let cells = zero_cells_of(alloc, proc.ports.as_slice())?;
        let regs = zero_registers_of(alloc, proc.regs.as_slice())?;
        Ok(OutRow { cells, regs })
    }
}

fn zero_cells_of(alloc: Global, ports: &[CorePort]) -> Result<Vec<OutCell>, AllocError>
    requires { IsTrue (list_all port_fits (map port_of ports.now)) }
    ensures { IfOk result (λ cells. cells.items ≡ map zero_cell (map port_of ports.now)) }
{
    let mut cells = Vec::new(alloc);
    for port in ports {
        cells.push(no_cell(port))?;
    }
    Ok(cells)
}

fn no_cell(port: &CorePort) -> OutCell
    requires { IsTrue (port_fits (port_of port.now)) }
    ensures { result ≡ zero_cell (port_of port.now) }
{
    if port.received {
        OutCell::Received { ack: false }
    } else {
        OutCell::Sent {
            valid: false,
            value: Bits::new(port.width, 0),
        }
    }
}

fn zero_registers_of(alloc: Global, registers: &[CoreReg]) -> Result<Vec<Bits>, AllocError>
    requires { IsTrue (list_all register_fits registers.now) }
    ensures { IfOk result (λ numbers. numbers.items ≡ map zero_register (map register_of registers.now)) }
{
    let mut numbers = Vec::new(alloc);
    for register in registers {
        numbers.push(Bits::new(register.width, 0))?;
    }
    Ok(numbers)
}
