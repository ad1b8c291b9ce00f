//! The module of a process.
ghost use Rattle.std.specs.Prelude.{◌≤◌, IfOk};
ghost use Rattle.core_term.specs.ProcessView.{process_of};
ghost use Rattle.core_term.specs.Rules.{KeepsDemands};
ghost use Rattle.machine_meaning.specs.Meaning.{Agrees, LogsAlike, MeansReread};
ghost use Rattle.machine_parts.specs.Digits.{digits};
ghost use Rattle.process_machine.specs.StateBits.{process_bound};
ghost use Rattle.sv_tree.specs.RegisterBits.{register_bits};
ghost use Rattle.sv_tree.specs.WellFormed.{IsWellFormed};
ghost use Rattle.fsm_builder.specs.ModuleOf.{IsModuleOf};

use crate::threads::{Sources, draw_threads, plan_threads};
use core_term::CoreProc;
use machine_parts::Frame;
use module_frame::frame_of;
use module_nets::{Name, Netlist};
use process_nets::finish_module;
use source_signals::{register_signals, wire_signals, word_signals};
use std::alloc::{AllocError, Global};
use sv_tree::SvModule;

/// The module of a process: it has the ports and the registers of the process, and its clocked meaning is the re-reading run, for
/// every input list that fits the ports, promises kept or not. Where the process keeps the timing rules, the module agrees with its
/// source run in each cycle up to which the promises of its partners are kept, sees the same first broken promise and has the same log of
/// the cycles before it.
///
/// Refuses only where memory is refused.
pub fn build(alloc: Global, proc: &CoreProc) -> Result<SvModule, AllocError>
    ensures well_formed { IfOk result IsWellFormed }
    ensures parts { IfOk result (IsModuleOf
        (process_of proc.now.name proc.now.ports.items proc.now.regs.items proc.now.threads.items)) }
    ensures means { IfOk result (MeansReread
        (process_of proc.now.name proc.now.ports.items proc.now.regs.items proc.now.threads.items)) }
    ensures agrees { IfOk result (λ made.
        KeepsDemands (process_of proc.now.name proc.now.ports.items proc.now.regs.items proc.now.threads.items)
        → Agrees (process_of proc.now.name proc.now.ports.items proc.now.regs.items proc.now.threads.items) made) }
    ensures logs { IfOk result (λ made.
        KeepsDemands (process_of proc.now.name proc.now.ports.items proc.now.regs.items proc.now.threads.items)
        → LogsAlike (process_of proc.now.name proc.now.ports.items proc.now.regs.items proc.now.threads.items) made) }
    ensures bits { IfOk result (λ made. register_bits made ≤ process_bound digits
        (process_of proc.now.name proc.now.ports.items proc.now.regs.items proc.now.threads.items)) }
{
    proc.stands();
    let plans = plan_threads(alloc, &proc.threads)?;
    let frame = frame_of(alloc, proc, &plans)?;
    let registers = register_signals(alloc, &proc.regs)?;
    let words = word_signals(alloc, &proc.ports)?;
    let wires = wire_signals(alloc, &proc.ports)?;
    let sources = Sources {
        registers: &registers,
        words: &words,
        wires: &wires,
    };
    let Frame {
        ports,
        regs,
        keeps,
        states,
    } = frame;
    let mut netlist = Netlist::new(alloc, ports, regs);
    let count = proc.ports.len() as u32;
    let drafts = draw_threads(
        alloc,
        &mut netlist,
        &sources,
        &proc.threads,
        &plans,
        &states,
        count,
    )?;
    let name = Name::of(alloc, proc.name.bytes());
    let made = finish_module(
        alloc,
        netlist,
        name,
        &proc.ports,
        &keeps,
        &registers,
        &wires,
        &drafts,
    )?;
    Ok(made)
}
