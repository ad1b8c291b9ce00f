//! What the bit or the counter of a node takes.
ghost use Rattle.std.specs.Prelude.{◌≡◌, ℕ, ◌<◌, IfOk, length, true};
ghost use Rattle.module_nets.specs.Netlist.{Extends, Stands};
ghost use Rattle.module_nets.specs.Shown.{Moment, IsMomentOf};
ghost use Rattle.module_nets.specs.Bits.{IsBit, Tells, told};
ghost use Rattle.machine_parts.specs.Parts.{bit_at, event_told, form_in, plan_at};
ghost use Rattle.machine_parts.specs.Nodes.{AreBits};
ghost use Rattle.machine_parts.specs.Frames.{keeps_state};
ghost use Rattle.machine_parts.specs.Modules.{NodeNext};
ghost use Rattle.process_nets.specs.Kept.{NodesStand};

use crate::parts::{bit_of, no_bit, pulse_of};
use machine_parts::{Event, NodePlan, Shape, ThreadDraft};
use module_nets::{Netlist, Signal};
use pulse_nets::{Part, draw_next};
use std::alloc::AllocError;

/// What the bit or the counter of a node takes at the end of a cycle.
pub fn draw_state(
    netlist: &mut Netlist,
    draft: &ThreadDraft<'_>,
    wires: &[Signal],
    node: u32,
) -> Result<Signal, AllocError>
    requires nodes { NodesStand netlist.old draft.now }
    requires wires { AreBits netlist.old wires.now }
    requires within { node < length draft.now.plan.now.nodes.items }
    requires keeps { keeps_state (form_in draft.now.plan.now.nodes.items node) ≡ true }
    ensures extends { IfOk result (λ drawn. Extends netlist.old netlist.new) }
    ensures stands { IfOk result (λ drawn. Stands netlist.new drawn) }
    ensures width { IfOk result (λ drawn. drawn.width ≡ (bit_at draft.now.states.now.nodes.items node).width) }
    ensures next { IfOk result (λ drawn.
        NodeNext netlist.new wires.now draft.now node drawn (form_in draft.now.plan.now.nodes.items node)) }
{
    let plan = plan_of(&draft.plan.nodes, node as usize);
    let event = draw_event(netlist, wires, &draft.nets.decisions, plan.event)?;
    let part = Part {
        shape: plan.shape,
        forgets: !plan.tail,
        state: bit_of(&draft.states.nodes, node as usize),
        event,
    };
    let pulse = pulse_of(&draft.nets.pulses, node as usize);
    let next = draw_next(netlist, &part, &pulse, &draft.nets.pulses)?;
    Ok(next)
}

/// What has to come for a node to come.
fn draw_event(
    netlist: &mut Netlist,
    wires: &[Signal],
    decisions: &[Signal],
    event: Event,
) -> Result<Signal, AllocError>
    requires wires { AreBits netlist.old wires.now }
    requires decisions { AreBits netlist.old decisions.now }
    ensures extends { IfOk result (λ drawn. Extends netlist.old netlist.new) }
    ensures bit { IfOk result (λ drawn. IsBit netlist.new drawn) }
    ensures tells { IfOk result (λ drawn. Tells netlist.new drawn
        (λ now. event_told now wires.now decisions.now event)) }
{
    match event {
        Event::Nothing => Ok(no_bit()),
        Event::Wire(port) => Ok(bit_of(wires, port as usize)),
        Event::Side { site, first: true } => Ok(bit_of(decisions, site as usize)),
        Event::Side { site, first: false } => {
            let other = netlist.invert(&bit_of(decisions, site as usize))?;
            Ok(other)
        }
    }
}

/// How a node is drawn.
fn plan_of(nodes: &[NodePlan], node: usize) -> NodePlan
    ensures { result ≡ plan_at nodes.now node }
{
    match nodes.get(node) {
        Some(plan) => *plan,
        None => NodePlan {
            shape: Shape::Start,
            tail: false,
            event: Event::Nothing,
        },
    }
}
