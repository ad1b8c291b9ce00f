//! What a simulation keeps before its first cycle.
ghost use Rattle.std.specs.Prelude.{◌≡◌, IfOk, IsTrue, length, map};
ghost use Rattle.std.specs.List.{list_all};
ghost use Rattle.core_term.specs.ProcessView.{port_of};
ghost use Rattle.core_term.specs.Rows.{number_of};
ghost use Rattle.core_term.specs.Sized.{port_fits};
ghost use Rattle.sim_laws.specs.Stands.{no_drives};
ghost use Rattle.sim_laws.specs.WidthsFound.{start_width, start_state as state_at_start, start_of, start_number, start_latest as latest_at_start};

use crate::thread::SimThread;
use anvil_bits::Bits;
use core_term::{CorePort, CoreReg, CoreThread};
use exchanges::Latest;
use sim_laws::{ActState, Does, Drive};
use std::alloc::{AllocError, Global};

/// A zero of the width that is kept; the value of an act that is unit is kept as a number of one bit.
fn zero_of(width: u8) -> Bits
    ensures { result ≡ number_of (start_width width) 0 }
{
    if width >= 1 && width <= 64 {
        Bits::new(width, 0)
    } else {
        Bits::new(1, 0)
    }
}

/// An act that has not begun.
fn start_state(width: u8) -> ActState
    ensures { result ≡ state_at_start width }
{
    ActState {
        does: Does::Nothing,
        begun: false,
        fresh: false,
        ended: false,
        over: false,
        left: 0,
        taken: Bits::new(1, 0),
        made: zero_of(width),
    }
}

/// The acts of a thread of which none has begun, by the widths of their sites.
pub fn start_acts(alloc: Global, widths: &[u8]) -> Result<Vec<ActState>, AllocError>
    ensures { IfOk result (λ acts. acts.items ≡ map state_at_start widths.now) }
{
    let mut acts = Vec::new(alloc);
    for width in widths {
        acts.push(start_state(*width))?;
    }
    Ok(acts)
}

/// The threads of these bodies, of which no turn has begun.
pub fn start_threads(
    alloc: Global,
    bodies: &[CoreThread],
    ports: &[CorePort],
    regs: &[CoreReg],
) -> Result<Vec<SimThread>, AllocError>
    ensures { IfOk result (λ threads. threads.items ≡ map (start_of ports.now regs.now) bodies.now) }
{
    let mut threads = Vec::new(alloc);
    for thread in bodies {
        threads.push(SimThread::new(alloc, thread.body(), ports, regs)?)?;
    }
    Ok(threads)
}

/// The registers, which show their resets.
pub fn start_registers(alloc: Global, regs: &[CoreReg]) -> Result<Vec<Bits>, AllocError>
    ensures { IfOk result (λ numbers. numbers.items ≡ map start_number regs.now) }
{
    let mut numbers = Vec::new(alloc);
    for reg in regs {
        numbers.push(reg.reset)?;
    }
    Ok(numbers)
}

fn start_latest(port: &CorePort) -> Latest
    requires { IsTrue (port_fits (port_of port.now)) }
    ensures { result ≡ latest_at_start port.now }
{
    Latest {
        lives: false,
        age: 0,
        number: Bits::new(port.width, 0),
    }
}

/// The latest exchanges of the ports, of which there was none.
pub fn start_latests(alloc: Global, ports: &[CorePort]) -> Result<Vec<Latest>, AllocError>
    requires { IsTrue (list_all port_fits (map port_of ports.now)) }
    ensures { IfOk result (λ latests. latests.items ≡ map latest_at_start ports.now) }
{
    let mut latests = Vec::new(alloc);
    for port in ports {
        latests.push(start_latest(port))?;
    }
    Ok(latests)
}

/// Room for what is driven on each port.
pub fn room_for_drives(alloc: Global, ports: usize) -> Result<Vec<Drive>, AllocError>
    ensures { IfOk result (λ drives. length drives.items ≡ ports) }
{
    let mut drives = Vec::new(alloc);
    for _ in 0..ports {
        let number = Bits::new(1, 0);
        drives.push(Drive {
            offered: false,
            number,
        })?;
    }
    Ok(drives)
}

/// Room for the exchanges of a cycle.
pub fn room_for_exchanges(alloc: Global, ports: usize) -> Result<Vec<bool>, AllocError>
    ensures { IfOk result (λ exchanged. length exchanged.items ≡ ports) }
{
    let mut exchanged = Vec::new(alloc);
    for _ in 0..ports {
        exchanged.push(false)?;
    }
    Ok(exchanged)
}
