//! The finished module.
ghost use Rattle.std.specs.Prelude.{◌≡◌, IfOk, IsTrue, map};
ghost use Rattle.sv_tree.specs.WellFormed.{IsWellFormed, is_name};
ghost use Rattle.module_nets.specs.Netlist.{Extends};
ghost use Rattle.module_nets.specs.Shifts.{shifts_stay};
ghost use Rattle.machine_parts.specs.Frames.{port_of};
ghost use Rattle.machine_parts.specs.Nodes.{AreBits};
ghost use Rattle.machine_parts.specs.Modules.{DraftStands, ModuleDrawn};
ghost use Rattle.process_nets.specs.Acts.{EachDraft};
ghost use Rattle.process_nets.specs.Kept.{IsKept};

use crate::nexts::draw_nexts;
use crate::outs::draw_outs;
use core_term::CorePort;
use machine_parts::{Keep, ThreadDraft};
use module_nets::{Name, Netlist, Signal, SvModule};
use std::alloc::{AllocError, Global};

/// The module: what each register takes at the end of a cycle, and what each port is given.
///
/// It takes nets for the nodes that keep a bit or a counter, and for the acts on a register or a port. Refuses only where memory
/// is refused.
pub fn finish_module(
    alloc: Global,
    netlist: Netlist,
    name: Name,
    ports: &[CorePort],
    keeps: &[Keep],
    registers: &[Signal],
    wires: &[Signal],
    drafts: &[ThreadDraft<'_>],
) -> Result<SvModule, AllocError>
    requires name { IsTrue (is_name name) }
    requires ports { netlist.ports ≡ map port_of ports.now }
    requires kept { IsKept netlist keeps.now registers.now drafts.now }
    requires wires { AreBits netlist wires.now }
    requires drafts { EachDraft (DraftStands netlist registers.now ports.now wires.now) drafts.now }
    ensures name { IfOk result (λ tree. tree.proc ≡ name) }
    ensures extends { IfOk result (λ tree. Extends netlist tree) }
    ensures well_formed { IfOk result IsWellFormed }
    ensures shifts { IfOk result (λ tree. IsTrue (shifts_stay tree.nets)) }
    ensures drawn { IfOk result (λ tree.
        ModuleDrawn tree keeps.now ports.now registers.now wires.now drafts.now) }
{
    let mut netlist = netlist;
    let nexts = draw_nexts(alloc, &mut netlist, keeps, registers, wires, drafts)?;
    let outs = draw_outs(alloc, &mut netlist, ports, drafts)?;
    Ok(netlist.finish(name, outs, nexts))
}
