//! Whether a module has the ports and the source registers of a process.
ghost use Rattle.std.specs.Prelude.{◌≡◌, ◌≤◌, ◌∷◌, true, false, List, length, drop, MatchOption};
ghost use Rattle.core_term.specs.ProcessView.{process_of};
ghost use Rattle.sv_tree.specs.declared.tree.SvReg.{SvReg as SvRegSeen};
ghost use Rattle.sv_tree.specs.Sources.{is_source};
ghost use Rattle.module_log.specs.Compared.{are_same_ports, are_same_registers, is_same_port, is_same_register, is_same_side};
ghost use Rattle.module_log.specs.SamePorts.{HasPortsOf};

use core_term::{CorePort, CoreProc, CoreReg};
use sv_tree::{SvModule, SvPort, SvReg, SvRegName};

/// Whether both are received, or both are sent.
fn same_side(received: bool, other: bool) -> bool
    ensures { result ≡ is_same_side received other }
{
    received == other
}

/// Whether a port of a module is that of the process.
fn same_port(port: &CorePort, other: &SvPort) -> bool
    ensures { result ≡ is_same_port port.now other.now }
{
    port.endpoint.bytes() == other.endpoint.bytes()
        && port.message.bytes() == other.message.bytes()
        && same_side(port.received, other.received)
        && port.width == other.width
}

/// Whether the ports of a module are those of the process.
fn same_ports(ports: &[CorePort], others: &[SvPort]) -> bool
    ensures { result ≡ are_same_ports ports.now others.now }
{
    if ports.len() != others.len() {
        return false;
    }
    for index in 0..ports.len() {
        if !same_port(&ports[index], &others[index]) {
            return false;
        }
    }
    true
}

/// Whether a register of a module is of the source.
fn of_source(reg: &SvReg) -> bool
    ensures { result ≡ is_source reg.now.name }
{
    match &reg.name {
        SvRegName::Source(_) => true,
        SvRegName::State(_) => false,
    }
}

/// Whether a register of a module is that of the process.
fn same_register(reg: &CoreReg, other: &SvReg) -> bool
    ensures { result ≡ is_same_register reg.now other.now }
{
    match &other.name {
        SvRegName::Source(name) => reg.name.bytes() == name.bytes() && reg.width == other.width,
        SvRegName::State(_) => false,
    }
}

/// How many registers of the process were found once one of the module is looked at: a state is passed over. `None` where it is
/// not the next one.
fn found_after(regs: &[CoreReg], found: usize, other: &SvReg) -> Option<usize>
    requires { found ≤ length regs.now }
    ensures { (others : List SvRegSeen) → MatchOption result
        (are_same_registers (drop found regs.now) (other.now ∷ others) ≡ false)
        (λ next. (next ≤ length regs.now)
        × (are_same_registers (drop found regs.now) (other.now ∷ others)
        ≡ are_same_registers (drop next regs.now) others)) }
{
    if !of_source(other) {
        return Some(found);
    }
    if found >= regs.len() || !same_register(&regs[found], other) {
        return None;
    }
    Some(found + 1)
}

/// Whether the source registers among those of a module are those of the process.
fn same_registers(regs: &[CoreReg], others: &[SvReg]) -> bool
    ensures { result ≡ are_same_registers regs.now others.now }
{
    let mut found = 0;
    for place in 0..others.len() {
        match found_after(regs, found, &others[place]) {
            Some(next) => found = next,
            None => return false,
        }
    }
    found == regs.len()
}

/// Whether a module has the ports and the source registers of a process, in order: of a port its endpoint, message, direction
/// and width, of a register its name and width. The name of the process and the resets are not compared.
pub fn matches(proc: &CoreProc, module: &SvModule) -> bool
    ensures same { result ≡ true
        → HasPortsOf (process_of proc.now.name proc.now.ports.items proc.now.regs.items proc.now.threads.items)
        «module».now }
    ensures other { result ≡ false
        → HasPortsOf (process_of proc.now.name proc.now.ports.items proc.now.regs.items proc.now.threads.items)
        «module».now → ⊥ }
{
    same_ports(proc.ports.as_slice(), module.ports())
        && same_registers(proc.regs.as_slice(), module.regs())
}
