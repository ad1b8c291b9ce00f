//! The frame of the module of a process.
ghost use Rattle.std.specs.Prelude.{ℕ, ◌≡◌, ◌+◌, ◌*◌, ◌<◌, ◌≤◌, true, IfOk, length, map, slice_get, Some};
ghost use Rattle.std.specs.List.{list_all};
ghost use Rattle.core_term.specs.ProcessView.{process_of, register_of};
ghost use Rattle.sv_tree.specs.Limits.{too_many};
ghost use Rattle.process_machine.specs.StateBits.{process_bound, registers_bits};
ghost use Rattle.machine_parts.specs.declared.plan.TurnPlan.{TurnPlan};
ghost use Rattle.machine_parts.specs.declared.frame.ThreadStates.{ThreadStates};
ghost use Rattle.machine_parts.specs.Frames.{AreStates, IsFrameOf, port_of, source_of, source_keeps};
ghost use Rattle.machine_parts.specs.Digits.{digits};
ghost use Rattle.module_frame.specs.BitLaws.{ArePlansOf};
ghost use Rattle.module_frame.specs.Bits.{frame_bits, plans_bits};
ghost use Rattle.module_frame.specs.Slots.{threads_slots};
ghost use Rattle.module_frame.specs.Drafts.{HasRoom, Grown, AreFew, is_kept_port, is_kept_register};

use crate::draft::FrameDraft;
use crate::thread::add_thread;
use anvil_lexer::Name;
use core_term::{CorePort, CoreProc, CoreReg};
use machine_parts::{Frame, Keep, SvPort, SvReg, ThreadStates, TurnPlan};
use std::alloc::{AllocError, Global};
use sv_tree::SvRegName;

/// The ports and registers of the module of a process, what each register keeps, and the registers of each thread as signals.
/// There is a plan for each thread, of fewer than 8192 nodes and of at most 512 acts.
///
/// Refuses only where memory is refused.
pub fn frame_of(alloc: Global, proc: &CoreProc, plans: &[TurnPlan]) -> Result<Frame, AllocError>
    requires count { length plans.now ≡ length proc.now.threads.items }
    requires few { AreFew plans.now }
    ensures frame { IfOk result (IsFrameOf proc.now.ports.items proc.now.regs.items plans.now) }
    ensures bits { IfOk result (λ frame.
        frame_bits frame ≡ registers_bits (map register_of proc.now.regs.items) + plans_bits plans.now) }
    ensures bound { let p = process_of proc.now.name proc.now.ports.items proc.now.regs.items proc.now.threads.items in
        IfOk result (λ frame. ArePlansOf p.threads plans.now → frame_bits frame ≤ process_bound digits p) }
{
    let mut draft = FrameDraft {
        frame: Frame {
            ports: ports_of(alloc, &proc.ports)?,
            regs: sources_of(alloc, &proc.regs)?,
            keeps: source_keeps(alloc, &proc.regs)?,
            states: Vec::new(alloc),
        },
        state_count: 0,
    };
    draft.frame.states = add_threads(alloc, &mut draft, plans)?;
    Ok(draft.frame)
}

/// A port of the module.
fn port_of(alloc: Global, port: &CorePort) -> SvPort
    ensures same { result ≡ port_of port.now }
    ensures kept { is_kept_port port.now ≡ true }
{
    SvPort {
        endpoint: Name::of(alloc, port.endpoint.bytes()),
        message: Name::of(alloc, port.message.bytes()),
        received: port.received,
        width: port.width,
    }
}

/// The ports of the module.
fn ports_of(alloc: Global, ports: &[CorePort]) -> Result<Vec<SvPort>, AllocError>
    ensures same { IfOk result (λ made. made.items ≡ map port_of ports.now) }
    ensures kept { IfOk result (λ made. list_all is_kept_port ports.now ≡ true) }
{
    let mut made = Vec::new(alloc);
    for port in ports {
        made.push(port_of(alloc, port))?;
    }
    Ok(made)
}

/// A register of the source.
fn source_of(alloc: Global, register: &CoreReg) -> SvReg
    ensures same { result ≡ source_of register.now }
    ensures kept { is_kept_register register.now ≡ true }
{
    // Read, so that it is known to be below 2 to its width.
    let _value = register.reset.value();
    SvReg {
        name: SvRegName::Source(Name::of(alloc, register.name.bytes())),
        width: register.width,
        reset: register.reset,
    }
}

/// The registers of the source.
fn sources_of(alloc: Global, registers: &[CoreReg]) -> Result<Vec<SvReg>, AllocError>
    ensures same { IfOk result (λ made. made.items ≡ map source_of registers.now) }
    ensures kept { IfOk result (λ made. list_all is_kept_register registers.now ≡ true) }
{
    let mut made = Vec::new(alloc);
    for register in registers {
        made.push(source_of(alloc, register))?;
    }
    Ok(made)
}

/// What the registers of the source keep.
fn source_keeps(alloc: Global, registers: &[CoreReg]) -> Result<Vec<Keep>, AllocError>
    requires few { length registers.now < too_many }
    ensures { IfOk result (λ keeps. keeps.items ≡ source_keeps 0 registers.now) }
{
    let mut keeps = Vec::new(alloc);
    for _register in registers {
        let number = keeps.len() as u32;
        keeps.push(Keep::Source(number))?;
    }
    Ok(keeps)
}

/// Adds the states of all threads.
fn add_threads(
    alloc: Global,
    draft: &mut FrameDraft,
    plans: &[TurnPlan],
) -> Result<Vec<ThreadStates>, AllocError>
    requires few { AreFew plans.now }
    requires room { HasRoom draft.old (8704 * length plans.now) }
    ensures grown { IfOk result (λ states. Grown draft.old draft.new (threads_slots 0 plans.now)) }
    ensures room { IfOk result (λ states. HasRoom draft.new 0) }
    ensures count { IfOk result (λ states. length states.items ≡ length plans.now) }
    ensures states { IfOk result (λ threads. (thread : ℕ) (plan : TurnPlan) (states : ThreadStates) →
        slice_get plans.now thread ≡ Some plan → slice_get threads.items thread ≡ Some states →
        AreStates draft.new.frame thread plan states) }
{
    let mut threads = Vec::new(alloc);
    for plan in plans {
        let thread = threads.len() as u32;
        threads.push(add_thread(alloc, draft, thread, plan)?)?;
    }
    Ok(threads)
}
