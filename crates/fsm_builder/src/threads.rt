//! The threads of a process as they are drawn.
ghost use Rattle.std.specs.Prelude.{◌≡◌, ℕ, IfOk, Some, length, slice_get};
ghost use Rattle.core_term.specs.declared.term.CoreTerm.{CoreTerm};
ghost use Rattle.core_term.specs.View.{term_of};
ghost use Rattle.core_term.specs.Widths.{Widths};
ghost use Rattle.machine_parts.specs.declared.frame.ThreadStates.{ThreadStates};
ghost use Rattle.machine_parts.specs.declared.plan.TurnPlan.{TurnPlan};
ghost use Rattle.machine_parts.specs.Plans.{IsTurnPlan};
ghost use Rattle.module_nets.specs.Netlist.{Extends};
ghost use Rattle.fsm_builder.specs.Drafts.{AreReady, DraftDrawn, DraftsDrawn, IsReady, PlansAre, drawn_body};

use core_term::CoreThread;
use machine_parts::{ThreadDraft, ThreadStates, TurnPlan};
use module_nets::{Netlist, Signal};
use process_nets::draw_newest;
use std::alloc::{AllocError, Global};
use thread_nets::{ThreadSetting, draw_thread};
use turn_plans::plan_turn;

/// What all threads read: the registers of the source, the data of the ports, and the wires that end acts on them.
#[derive(Clone, Copy)]
pub struct Sources<'a> {
    /// What each register of the source shows.
    pub registers: &'a [Signal],
    /// The data of each port.
    pub words: &'a [Signal],
    /// The wire of each port.
    pub wires: &'a [Signal],
}

/// How the nodes of one turn of each thread are drawn.
pub fn plan_threads(alloc: Global, threads: &[CoreThread]) -> Result<Vec<TurnPlan>, AllocError>
    ensures count { IfOk result (λ plans. length plans.items ≡ length threads.now) }
    ensures plans { IfOk result (λ plans. PlansAre threads.now plans.items) }
{
    let mut plans = Vec::new(alloc);
    for thread in threads {
        plans.push(plan_turn(alloc, thread)?)?;
    }
    Ok(plans)
}

/// The threads as they are drawn, in order. Refuses only where memory is refused.
pub fn draw_threads<'a>(
    alloc: Global,
    netlist: &mut Netlist,
    sources: &Sources<'a>,
    threads: &[CoreThread],
    plans: &'a [TurnPlan],
    states: &'a [ThreadStates],
    ports: u32,
) -> Result<Vec<ThreadDraft<'a>>, AllocError>
    requires plan_count { length plans.now ≡ length threads.now }
    requires state_count { length states.now ≡ length threads.now }
    requires ready { AreReady netlist.old sources.now threads.now plans.now states.now ports }
    ensures extends { IfOk result (λ drafts. Extends netlist.old netlist.new) }
    ensures count { IfOk result (λ drafts. length drafts.items ≡ length threads.now) }
    ensures drawn { IfOk result (λ drafts.
        DraftsDrawn netlist.new sources.now threads.now plans.now states.now drafts.items) }
{
    let mut drafts = Vec::new(alloc);
    for number in 0..threads.len() {
        let setting = ThreadSetting {
            plan: &plans[number],
            states: &states[number],
            registers: sources.registers,
            ports: sources.words,
            wires: sources.wires,
        };
        let draft = draw_draft(alloc, netlist, &setting, &threads[number], ports)?;
        drafts.push(draft)?;
    }
    Ok(drafts)
}

/// A thread as it is drawn.
fn draw_draft<'a>(
    alloc: Global,
    netlist: &mut Netlist,
    setting: &ThreadSetting<'a>,
    thread: &CoreThread,
    ports: u32,
) -> Result<ThreadDraft<'a>, AllocError>
    requires { IsReady netlist.old setting.now.registers.now setting.now.ports.now setting.now.wires.now
        setting.now.plan.now setting.now.states.now thread.now ports }
    ensures extends { IfOk result (λ draft. Extends netlist.old netlist.new) }
    ensures plan { IfOk result (λ draft. draft.plan.now ≡ setting.now.plan.now) }
    ensures states { IfOk result (λ draft. draft.states.now ≡ setting.now.states.now) }
    ensures drawn { IfOk result (DraftDrawn netlist.new setting.now.registers.now setting.now.ports.now
        setting.now.wires.now thread.now) }
{
    let nets = draw_thread(alloc, netlist, setting, thread)?;
    let kept = setting.states.newest.as_slice();
    let newest = draw_newest(alloc, netlist, setting.plan, kept, &nets.pulses, ports)?;
    Ok(ThreadDraft {
        plan: setting.plan,
        states: setting.states,
        nets,
        newest,
    })
}
