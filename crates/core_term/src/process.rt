//! Files and processes, whose parts fit together.
ghost use Rattle.std.specs.Prelude.{IsTrue};
ghost use Rattle.core_term.specs.Sized.{is_sized, is_owned};

use crate::CoreThread;
use anvil_bits::Bits;
use anvil_lexer::Name;

/// One end of the life of an exchange: after so many cycles, or in the cycle of the next exchange of another port.
#[derive(Clone, Copy, Debug, PartialEq, Eq)]
pub enum CoreLife {
    Cycles(u16),
    Until(u32),
}

/// A message of an endpoint: whether it is received or sent, its width in bits, and the end of the life of its exchanges.
#[derive(Drop)]
pub struct CorePort {
    pub endpoint: Name,
    pub message: Name,
    pub received: bool,
    pub width: u8,
    pub life: CoreLife,
}

/// A register, and the value that it shows in cycle 0.
#[derive(Drop)]
pub struct CoreReg {
    pub name: Name,
    pub width: u8,
    pub reset: Bits,
}

/// A process, which is sized and owned.
///
/// Sized: every port and register number is below its count, an ending message is another port of the same endpoint, a `send`
/// names a sent port and a `recv` a received one, all widths agree, no variable without a width stands in an expression,
/// names are good, none stands twice, and the limits hold. Owned: no two threads name ports of one endpoint, and no register
/// is set by two threads.
#[derive(Drop)]
pub struct CoreProc {
    pub name: Name,
    pub ports: Vec<CorePort>,
    pub regs: Vec<CoreReg>,
    pub threads: Vec<CoreThread>,
    pub ghost sized: { IsTrue (is_sized name ports.items regs.items threads.items) },
    pub ghost owned: { IsTrue (is_owned name ports.items regs.items threads.items) },
}

/// The processes of a file, in order.
#[derive(Drop)]
pub struct CoreFile {
    pub procs: Vec<CoreProc>,
}

impl CoreProc {
    ghost use Rattle.std.specs.Prelude.{◌≡◌, ◌<◌, length, map, Some};
    ghost use Rattle.std.specs.List.{slice_get};
    ghost use Rattle.core_term.specs.Process.{nth_port, IsProcess};
    ghost use Rattle.core_term.specs.ProcessView.{port_of, end_of_life, process_of};

    /// How many ends the life of a port has.
    pub fn end_count(&self, port: u32) -> u32
        requires { port < length self.now.ports.items }
        ensures { result ≡ length (nth_port (map port_of self.now.ports.items) port).life }
    {
        1
    }

    /// One of the ends of the life of a port.
    pub fn end(&self, port: u32, index: u32) -> CoreLife
        requires port { port < length self.now.ports.items }
        requires index { index < length (nth_port (map port_of self.now.ports.items) port).life }
        ensures { slice_get (nth_port (map port_of self.now.ports.items) port).life index ≡ Some (end_of_life result) }
    {
        self.ports[port as usize].life
    }

    /// Shows callers that the process is one of the definitions. It only reads the threads.
    pub fn stands(&self)
        ensures { IsProcess (process_of self.now.name self.now.ports.items self.now.regs.items self.now.threads.items) }
    {
        for thread in self.threads.as_slice() {
            let _body = thread.body();
        }
    }
}
