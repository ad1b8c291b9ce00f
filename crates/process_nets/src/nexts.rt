//! What the registers of a module take, by what each keeps.
ghost use Rattle.std.specs.Prelude.{◌≡◌, ℕ, ◌<◌, IfOk, length};
ghost use Rattle.module_nets.specs.Netlist.{Extends};
ghost use Rattle.machine_parts.specs.Nodes.{AreBits};
ghost use Rattle.machine_parts.specs.Frames.{keep_at};
ghost use Rattle.process_nets.specs.Kept.{KeepStands, KeptDrawn, NextsDrawn};

use crate::acts::draw_written;
use crate::parts::{bit_of, value_of};
use crate::states::draw_state;
use anvil_bits::Bits;
use machine_parts::{Keep, ThreadDraft};
use module_nets::{Netlist, Signal, SvOperand};
use std::alloc::{AllocError, Global};

/// What each register takes at the end of a cycle, in their order.
pub fn draw_nexts(
    alloc: Global,
    netlist: &mut Netlist,
    keeps: &[Keep],
    registers: &[Signal],
    wires: &[Signal],
    drafts: &[ThreadDraft<'_>],
) -> Result<Vec<SvOperand>, AllocError>
    requires keeps { (place : ℕ) → place < length keeps.now →
        KeepStands netlist.old registers.now drafts.now (keep_at keeps.now place) }
    requires wires { AreBits netlist.old wires.now }
    ensures extends { IfOk result (λ nexts. Extends netlist.old netlist.new) }
    ensures count { IfOk result (λ nexts. length nexts.items ≡ length keeps.now) }
    ensures drawn { IfOk result (λ nexts.
        NextsDrawn netlist.new registers.now wires.now drafts.now keeps.now nexts.items (length keeps.now)) }
{
    let mut nexts = Vec::new(alloc);
    for keep in keeps {
        let next = draw_kept(netlist, *keep, registers, wires, drafts)?;
        nexts.push(next.operand)?;
    }
    Ok(nexts)
}

/// What a register takes that keeps this.
fn draw_kept(
    netlist: &mut Netlist,
    keep: Keep,
    registers: &[Signal],
    wires: &[Signal],
    drafts: &[ThreadDraft<'_>],
) -> Result<Signal, AllocError>
    requires keep { KeepStands netlist.old registers.now drafts.now keep }
    requires wires { AreBits netlist.old wires.now }
    ensures extends { IfOk result (λ next. Extends netlist.old netlist.new) }
    ensures drawn { IfOk result (KeptDrawn netlist.new registers.now wires.now drafts.now keep) }
{
    match keep {
        Keep::Source(register) => {
            let shows = value_of(registers, register as usize);
            let taken = draw_written(netlist, drafts, register, &shows)?;
            Ok(taken)
        }
        Keep::Started(_) => Ok(Signal::literal(Bits::new(1, 1))),
        Keep::Node { thread, node } => {
            let next = draw_state(netlist, &drafts[thread as usize], wires, node)?;
            Ok(next)
        }
        Keep::Side { thread, site } => {
            Ok(bit_of(&drafts[thread as usize].nets.sides, site as usize))
        }
        Keep::Newest { thread, site } => {
            Ok(bit_of(&drafts[thread as usize].newest, site as usize))
        }
    }
}
