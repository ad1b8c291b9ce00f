//! What the nodes of a graph wait for: the wires that end the acts on ports, and the decisions for sides.
ghost use Rattle.std.specs.Prelude.{◌≡◌, ◌<◌, ℕ, length, IfOk, Some};
ghost use Rattle.machine_parts.specs.Parts.{node_at};
ghost use Rattle.turn_plans.specs.Wires.{AreEvents, AreMarked, EndsAreApart, port_of, wired_by};

use crate::shapes::sides_of;
use act_deeds::Deed;
use event_graph::{EvId, Graph};
use machine_parts::Event;
use std::alloc::{AllocError, Global};

/// What all nodes wait for, by their numbers.
pub fn events_of(
    alloc: Global,
    graph: &Graph<'_>,
    deeds: &[Deed],
    ends: &[EvId],
) -> Result<Vec<Event>, AllocError>
    requires { EndsAreApart deeds.now ends.now (length graph.now) }
    ensures { IfOk result (λ events. AreEvents graph.now deeds.now ends.now events.items) }
{
    let mut events = sides_of(alloc, graph)?;
    mark_wires(deeds, ends, &mut events);
    Ok(events)
}

/// Writes the wire of its port as the event of the node that ends an act on a port, for all acts.
fn mark_wires(deeds: &[Deed], ends: &[EvId], events: &mut [Event])
    requires { EndsAreApart deeds.now ends.now (length events.old) }
    ensures { AreMarked deeds.now ends.now events.old events.new }
{
    for site in 0..deeds.len() {
        mark_wire(deeds[site], ends[site], events);
    }
}

/// The same of one act.
fn mark_wire(deed: Deed, end: EvId, events: &mut [Event])
    requires { (port : ℕ) → port_of deed ≡ Some port → end < length events.old }
    ensures { events.new ≡ wired_by (port_of deed) end events.old }
{
    match deed {
        Deed::Sends(port) | Deed::Receives(port) => events[end as usize] = Event::Wire(port),
        _ => {}
    }
}
