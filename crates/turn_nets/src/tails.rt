//! The pulses of the nodes of the tail, which are drawn from registers alone.
ghost use Rattle.std.specs.Prelude.{◌≡◌, ℕ, ◌<◌, IfOk, length, true};
ghost use Rattle.module_nets.specs.Netlist.{Extends};
ghost use Rattle.module_nets.specs.Shown.{Moment};
ghost use Rattle.pulse_nets.specs.Pulses.{no_pulse};
ghost use Rattle.machine_parts.specs.Nodes.{AreNodes, AreStatesDrawn, TailsDrawn};
ghost use Rattle.turn_nets.specs.Planned.{TailDrawn, TailsSoFar};

use crate::setting::{TurnSetting, bit_of, part_of, zero};
use pulse_nets::{Netlist, Pulse, Signal, draw_pulse};
use std::alloc::{AllocError, Global};

/// The pulses of the nodes of the tail, by their nodes; in the places of other nodes stand pulses that are not drawn.
pub fn draw_tails(
    alloc: Global,
    netlist: &mut Netlist,
    setting: &TurnSetting<'_>,
) -> Result<Vec<Pulse>, AllocError>
    requires nodes { AreNodes setting.now.nodes.now }
    requires states { AreStatesDrawn netlist.old setting.now.nodes.now setting.now.states.now }
    ensures extends { IfOk result (λ tails. Extends netlist.old netlist.new) }
    ensures count { IfOk result (λ tails. length tails.items ≡ length setting.now.nodes.now) }
    ensures drawn { IfOk result (λ tails. TailsDrawn netlist.new setting.now.nodes.now setting.now.states.now
        setting.now.wires.now tails.items) }
{
    let mut tails = Vec::new(alloc);
    for _node in 0..setting.nodes.len() {
        let tail = draw_tail(netlist, setting, &tails)?;
        tails.push(tail)?;
    }
    Ok(tails)
}

/// The pulse of the next node, where it is of the tail.
fn draw_tail(
    netlist: &mut Netlist,
    setting: &TurnSetting<'_>,
    before: &[Pulse],
) -> Result<Pulse, AllocError>
    requires nodes { AreNodes setting.now.nodes.now }
    requires states { AreStatesDrawn netlist.old setting.now.nodes.now setting.now.states.now }
    requires inside { length before.now < length setting.now.nodes.now }
    requires before { TailsSoFar netlist.old setting.now.nodes.now setting.now.states.now before.now }
    ensures extends { IfOk result (λ tail. Extends netlist.old netlist.new) }
    ensures drawn { IfOk result (λ tail. TailDrawn netlist.new setting.now.nodes.now setting.now.states.now
        (length before.now) before.now tail) }
{
    let node = before.len();
    let plan = setting.nodes[node];
    if !plan.tail {
        return Ok(none());
    }
    let nothing = zero();
    let part = part_of(&plan, &bit_of(setting.states, node), &nothing);
    let tail = draw_pulse(netlist, &part, before, &nothing)?;
    Ok(tail)
}

/// The place of a pulse that is not drawn.
fn none() -> Pulse
    ensures { result ≡ no_pulse }
{
    Pulse {
        pulse: Signal::none(),
        known: Signal::none(),
    }
}
