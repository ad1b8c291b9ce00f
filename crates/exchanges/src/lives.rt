//! The lives of the ports of a process, each as the ends of its exchanges.
ghost use Rattle.std.specs.Prelude.{◌≡◌, ◌<◌, Some, IfOk, length, map, slice_get};
ghost use Rattle.core_term.specs.Process.{nth_port};
ghost use Rattle.core_term.specs.ProcessView.{port_of, end_of_life};
ghost use Rattle.exchanges.specs.Lives.{lives_of};

use core_term::{CoreLife, CoreProc};
use std::alloc::{AllocError, Global};
use std::marker::Model;

/// The lives of the ports of a process, in port order. Contracts see it as the list of them, each a list of ends.
#[derive(Drop)]
pub struct Lives {
    ends: Vec<Vec<CoreLife>>,
}

impl Model for Lives {
    ghost use Rattle.std.specs.Prelude.{List, map};
    ghost use Rattle.core_term.specs.Process.{LifeEnd};
    ghost use Rattle.exchanges.specs.Lives.{life_kept};

    ghost Value = { List (List LifeEnd) };

    ghost view = { λ lives. map life_kept lives.ends.items };
}

/// The ends of the life of a port.
fn ends_of(alloc: Global, proc: &CoreProc, port: u32) -> Result<Vec<CoreLife>, AllocError>
    requires { port < length proc.now.ports.items }
    ensures { IfOk result (λ ends. map end_of_life ends.items ≡ (nth_port (map port_of proc.now.ports.items) port).life) }
{
    let mut ends = Vec::new(alloc);
    for index in 0..proc.end_count(port) {
        ends.push(proc.end(port, index))?;
    }
    Ok(ends)
}

impl Lives {
    /// The lives of the ports of the process.
    ///
    /// Refuses only where memory is refused.
    pub fn of(alloc: Global, proc: &CoreProc) -> Result<Lives, AllocError>
        ensures { IfOk result (λ lives. lives ≡ lives_of (map port_of proc.now.ports.items)) }
    {
        let mut ends = Vec::new(alloc);
        for port in 0..proc.ports.len() {
            ends.push(ends_of(alloc, proc, port as u32)?)?;
        }
        Ok(Lives { ends })
    }

    /// The ends of the life of a port.
    pub fn ends(&self, port: usize) -> &[CoreLife]
        requires { port < length self.now }
        ensures { slice_get self.now port ≡ Some (map end_of_life result.now) }
    {
        self.ends[port].as_slice()
    }
}
