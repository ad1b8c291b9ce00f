//! The nets of a thread: the pulses of the tail, whether a turn begins, the walk over the body, and the pulses that are left.
ghost use Rattle.std.specs.Prelude.{◌≡◌, ℕ, ◌<◌, [], IfOk, IsTrue, length};
ghost use Rattle.module_nets.specs.Bits.{IsBit};
ghost use Rattle.module_nets.specs.Netlist.{Extends};
ghost use Rattle.module_nets.specs.Signals.{PlacesStand};
ghost use Rattle.pulse_nets.specs.Pulses.{pulse_at};
ghost use Rattle.act_deeds.specs.declared.deed.Deed.TheVariants.{Decides};
ghost use Rattle.act_deeds.specs.Deeds.{deed_at};
ghost use Rattle.machine_parts.specs.Nodes.{AreBits, AreNodes, AreStatesDrawn};
ghost use Rattle.machine_parts.specs.Parts.{bit_at, zero_bit};
ghost use Rattle.machine_parts.specs.Plans.{IsTurnPlan};
ghost use Rattle.machine_parts.specs.Threads.{ThreadDrawn};
ghost use Rattle.thread_nets.specs.Body.{body_of, source_widths};
ghost use Rattle.core_term.specs.Numbering.{Numbered};
ghost use Rattle.thread_nets.specs.Fits.{acts_fit};
ghost use Rattle.thread_nets.specs.Walk.{kept_registers, plan_in, term_at, widths_at, BodyDrawn, Ground};

use crate::act::draw_pulses;
use crate::setting::{Drawn, ThreadSetting, Walk};
use crate::walk::draw_term;
use core_term::{CoreTerm, CoreThread};
use machine_parts::ThreadNets;
use module_nets::{Netlist, Signal};
use pulse_nets::Pulse;
use std::alloc::{AllocError, Global};
use turn_nets::{TurnSetting, draw_begin, draw_tails};

/// The nets of a thread. Refuses only where memory is refused.
pub fn draw_thread(
    alloc: Global,
    netlist: &mut Netlist,
    setting: &ThreadSetting<'_>,
    thread: &CoreThread,
) -> Result<ThreadNets, AllocError>
    requires plan { IsTurnPlan (body_of setting.now thread.now) setting.now.plan.now }
    requires nodes { AreNodes setting.now.plan.now.nodes.items }
    requires states { AreStatesDrawn netlist.old setting.now.plan.now.nodes.items setting.now.states.now.nodes.items }
    requires kept { AreBits netlist.old setting.now.states.now.sides.items }
    requires no_side { (place : ℕ) → (deed_at setting.now.plan.now.deeds.items place ≡ Decides → ⊥) →
        bit_at setting.now.states.now.sides.items place ≡ zero_bit }
    requires started { IsBit netlist.old setting.now.states.now.started }
    requires wires { AreBits netlist.old setting.now.wires.now }
    requires places { PlacesStand netlist.old setting.now.registers.now setting.now.ports.now [] }
    requires fits { IsTrue (acts_fit (length setting.now.registers.now) (source_widths setting.now)
        (body_of setting.now thread.now)) }
    ensures extends { IfOk result (λ nets. Extends netlist.old netlist.new) }
    ensures drawn { IfOk result (λ nets. ThreadDrawn netlist.new setting.now.registers.now setting.now.ports.now
        setting.now.wires.now (body_of setting.now thread.now) setting.now.plan.now setting.now.states.now nets) }
{
    let turn_setting = TurnSetting {
        nodes: &setting.plan.nodes,
        states: &setting.states.nodes,
        wires: setting.wires,
    };
    let body = thread.body();
    let tails = draw_tails(alloc, netlist, &turn_setting)?;
    let end = pulse_of(&tails, setting.plan.last);
    let begin = draw_begin(netlist, &setting.states.started, &end)?;
    let walk = Walk {
        setting: *setting,
        begin,
        tails: &tails,
    };
    let drawn = draw_body(alloc, netlist, &walk, body)?;
    Ok(nets_of(&walk.begin, drawn))
}

/// The pulse of a node.
fn pulse_of(pulses: &[Pulse], node: u32) -> Signal
    requires { node < length pulses.now }
    ensures { result ≡ (pulse_at pulses.now node).pulse }
{
    pulses[node as usize].pulse
}

/// Draws the acts of a body and then the pulses that are left.
fn draw_body(
    alloc: Global,
    netlist: &mut Netlist,
    walk: &Walk<'_>,
    body: &CoreTerm,
) -> Result<Drawn, AllocError>
    requires ground { Ground netlist.old walk.now }
    requires plan { IsTurnPlan (term_at walk.now [] body.now) (plan_in walk.now) }
    requires numbered { Numbered [] 0 (term_at walk.now [] body.now) }
    requires fits { IsTrue (acts_fit (length (kept_registers walk.now)) (widths_at walk.now [])
        (term_at walk.now [] body.now)) }
    ensures { IfOk result (λ drawn.
        BodyDrawn netlist.old netlist.new walk.now drawn (term_at walk.now [] body.now)) }
{
    let mut drawn = Drawn::new(alloc);
    let _value = draw_term(alloc, netlist, walk, &[], body, &mut drawn)?;
    let count = walk.setting.plan.nodes.len() as u32;
    draw_pulses(netlist, walk, count, &mut drawn)?;
    Ok(drawn)
}

/// What is drawn, as the nets of a thread.
fn nets_of(begin: &Signal, drawn: Drawn) -> ThreadNets
    ensures { result ≡ record {
      begin = begin.now;
      pulses = drawn.pulses;
      values = drawn.values;
      decisions = drawn.decisions;
      sides = drawn.sides;
    } }
{
    let Drawn {
        pulses,
        values,
        decisions,
        sides,
    } = drawn;
    ThreadNets {
        begin: *begin,
        pulses,
        values,
        decisions,
        sides,
    }
}
