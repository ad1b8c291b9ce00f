//! The pulses of the nodes in their order, where those of the tail are drawn.
ghost use Rattle.std.specs.Prelude.{◌≡◌, ℕ, ◌<◌, ◌≤◌, IfOk, length, true};
ghost use Rattle.module_nets.specs.Netlist.{Extends};
ghost use Rattle.module_nets.specs.Shown.{Moment, IsMomentOf};
ghost use Rattle.module_nets.specs.Bits.{IsBit, Tells, told};
ghost use Rattle.pulse_nets.specs.Pulses.{begins, pulse_at};
ghost use Rattle.machine_parts.specs.Parts.{bit_at, plan_at, event_told};
ghost use Rattle.machine_parts.specs.Nodes.{AreBits, AreNodes, AreStatesDrawn, PulsesSoFar, TailsDrawn, WaitBelow};
ghost use Rattle.turn_nets.specs.Planned.{NodeDrawn};

use crate::setting::{TurnSetting, bit_of, part_of, zero};
use machine_parts::Event;
use pulse_nets::{Netlist, Pulse, Signal, draw_pulse};
use std::alloc::AllocError;

/// Draws the pulses of the nodes below a number that are not drawn yet, in order. Those of the tail are the ones given.
pub fn draw_below(
    netlist: &mut Netlist,
    setting: &TurnSetting<'_>,
    begin: &Signal,
    tails: &[Pulse],
    decisions: &[Signal],
    bound: u32,
    pulses: &mut Vec<Pulse>,
) -> Result<(), AllocError>
    requires nodes { AreNodes setting.now.nodes.now }
    requires states { AreStatesDrawn netlist.old setting.now.nodes.now setting.now.states.now }
    requires wires { AreBits netlist.old setting.now.wires.now }
    requires decisions { AreBits netlist.old decisions.now }
    requires begin { IsBit netlist.old begin.now }
    requires tails { TailsDrawn netlist.old setting.now.nodes.now setting.now.states.now setting.now.wires.now
        tails.now }
    requires tail_count { length tails.now ≡ length setting.now.nodes.now }
    requires bound { bound ≤ length setting.now.nodes.now }
    requires known { WaitBelow setting.now.nodes.now bound (length decisions.now) }
    requires so_far { PulsesSoFar netlist.old setting.now.nodes.now setting.now.states.now setting.now.wires.now
        decisions.now (begins begin.now) tails.now pulses.old.items }
    ensures extends { IfOk result (λ done. Extends netlist.old netlist.new) }
    ensures reaches { IfOk result (λ done. bound ≤ length pulses.new.items) }
    ensures longer { IfOk result (λ done. length pulses.old.items ≤ length pulses.new.items) }
    ensures kept { IfOk result (λ done. (node : ℕ) → node < length pulses.old.items →
        pulse_at pulses.new.items node ≡ pulse_at pulses.old.items node) }
    ensures so_far { IfOk result (λ done. PulsesSoFar netlist.new setting.now.nodes.now setting.now.states.now
        setting.now.wires.now decisions.now (begins begin.now) tails.now pulses.new.items) }
{
    for _node in pulses.len()..bound as usize {
        let pulse = draw_node(netlist, setting, begin, tails, decisions, pulses)?;
        pulses.push(pulse)?;
    }
    Ok(())
}

/// The pulse of the next node.
fn draw_node(
    netlist: &mut Netlist,
    setting: &TurnSetting<'_>,
    begin: &Signal,
    tails: &[Pulse],
    decisions: &[Signal],
    before: &[Pulse],
) -> Result<Pulse, AllocError>
    requires nodes { AreNodes setting.now.nodes.now }
    requires states { AreStatesDrawn netlist.old setting.now.nodes.now setting.now.states.now }
    requires wires { AreBits netlist.old setting.now.wires.now }
    requires decisions { AreBits netlist.old decisions.now }
    requires begin { IsBit netlist.old begin.now }
    requires tails { TailsDrawn netlist.old setting.now.nodes.now setting.now.states.now setting.now.wires.now
        tails.now }
    requires tail_count { length tails.now ≡ length setting.now.nodes.now }
    requires inside { length before.now < length setting.now.nodes.now }
    requires so_far { PulsesSoFar netlist.old setting.now.nodes.now setting.now.states.now setting.now.wires.now
        decisions.now (begins begin.now) tails.now before.now }
    ensures extends { IfOk result (λ drawn. Extends netlist.old netlist.new) }
    ensures drawn { IfOk result (λ drawn. NodeDrawn netlist.new (plan_at setting.now.nodes.now (length before.now))
        (bit_at setting.now.states.now (length before.now))
        (λ now. event_told now setting.now.wires.now decisions.now
        (plan_at setting.now.nodes.now (length before.now)).event)
        (begins begin.now) before.now drawn) }
    ensures same { (plan_at setting.now.nodes.now (length before.now)).tail ≡ true →
        IfOk result (λ drawn. drawn ≡ pulse_at tails.now (length before.now)) }
{
    let node = before.len();
    let plan = setting.nodes[node];
    if plan.tail {
        return Ok(tails[node]);
    }
    let event = draw_event(netlist, setting.wires, decisions, &plan.event)?;
    let part = part_of(&plan, &bit_of(setting.states, node), &event);
    let drawn = draw_pulse(netlist, &part, before, begin)?;
    Ok(drawn)
}

/// Whether what a node waits for comes. A decision for the second side takes one net.
fn draw_event(
    netlist: &mut Netlist,
    wires: &[Signal],
    decisions: &[Signal],
    event: &Event,
) -> Result<Signal, AllocError>
    requires wires { AreBits netlist.old wires.now }
    requires decisions { AreBits netlist.old decisions.now }
    ensures extends { IfOk result (λ drawn. Extends netlist.old netlist.new) }
    ensures bit { IfOk result (λ drawn. IsBit netlist.new drawn) }
    ensures tells { IfOk result (λ drawn. Tells netlist.new drawn
        (λ now. event_told now wires.now decisions.now event.now)) }
{
    match event {
        Event::Nothing => Ok(zero()),
        Event::Wire(port) => Ok(bit_of(wires, *port as usize)),
        Event::Side { site, first: true } => Ok(bit_of(decisions, *site as usize)),
        Event::Side { site, first: false } => netlist.invert(&bit_of(decisions, *site as usize)),
    }
}
