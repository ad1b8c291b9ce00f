//! The shapes of the nodes of a graph, and what each waits for by the side that it begins.
ghost use Rattle.std.specs.Prelude.{◌≡◌, ◌<◌, ℕ, length, slice_index_or, IfOk};
ghost use Rattle.event_graph.specs.Event as seen;
ghost use Rattle.event_graph.specs.Forms as forms;
ghost use Rattle.pulse_nets.specs.Pulses.{form_of};
ghost use Rattle.turn_plans.specs.Read.{AreShapes, AreSides, decision_of, event_of};

use event_graph::{Arm, EvId, Graph, Kind, Node};
use machine_parts::{Event, Shape};
use std::alloc::{AllocError, Global};

/// The shapes of all nodes, by their numbers.
pub fn shapes_of(alloc: Global, graph: &Graph<'_>) -> Result<Vec<Shape>, AllocError>
    ensures { IfOk result (λ shapes. AreShapes graph.now shapes.items) }
{
    let mut shapes = Vec::new(alloc);
    for node in 0..graph.count() {
        shapes.push(shape_of(&graph.node(node)))?;
    }
    Ok(shapes)
}

/// What all nodes wait for by the sides that they begin, by their numbers.
pub fn sides_of(alloc: Global, graph: &Graph<'_>) -> Result<Vec<Event>, AllocError>
    ensures { IfOk result (λ events. AreSides graph.now events.items) }
{
    let mut events = Vec::new(alloc);
    for node in 0..graph.count() {
        events.push(event_of(&graph.node(node)))?;
    }
    Ok(events)
}

/// How a node comes from earlier ones.
fn shape_of(node: &Node<'_>) -> Shape
    ensures { form_of result ≡ forms.form_of node.now.kind node.now.preds.now }
{
    let first = pred_at(node.preds, 0);
    let second = pred_at(node.preds, 1);
    match node.kind {
        Kind::Start => Shape::Start,
        Kind::Same => Shape::Same(first),
        Kind::After(cycles) => Shape::After(cycles, first),
        Kind::Sync => Shape::Sync(first),
        Kind::Join => Shape::Join(first, second),
        Kind::Side => Shape::Side(first),
        Kind::Merge => Shape::Merge(first, second),
    }
}

/// A predecessor, or 0 where there is none at the place.
fn pred_at(preds: &[EvId], place: usize) -> EvId
    ensures { result ≡ slice_index_or preds.now place 0 }
{
    match preds.get(place) {
        None => 0,
        Some(pred) => *pred,
    }
}

/// What a node waits for by the side that it begins: the decision for that side, which its last arm names.
fn event_of(node: &Node<'_>) -> Event
    ensures { result ≡ event_of (seen.event_of node.now) }
{
    match node.kind {
        Kind::Side => decision_of(node.arms),
        _ => Event::Nothing,
    }
}

/// The decision for the side of the last arm.
fn decision_of(arms: &[Arm]) -> Event
    ensures { result ≡ decision_of arms.now }
{
    match arms.last() {
        None => Event::Nothing,
        Some(arm) => Event::Side {
            site: arm.site,
            first: arm.yes,
        },
    }
}
