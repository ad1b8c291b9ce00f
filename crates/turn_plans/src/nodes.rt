//! The nodes of a plan, from what was told of each.
ghost use Rattle.std.specs.Prelude.{◌≡◌, length, IfOk};
ghost use Rattle.turn_plans.specs.Read.{AreNodesOf};

use machine_parts::{Event, NodePlan, Shape};
use std::alloc::{AllocError, Global};

/// The nodes of these shapes, tails and events.
pub fn nodes_of(
    alloc: Global,
    shapes: &[Shape],
    tails: &[bool],
    events: &[Event],
) -> Result<Vec<NodePlan>, AllocError>
    requires tails { length tails.now ≡ length shapes.now }
    requires events { length events.now ≡ length shapes.now }
    ensures { IfOk result (λ nodes. AreNodesOf shapes.now tails.now events.now nodes.items) }
{
    let mut nodes = Vec::new(alloc);
    for node in 0..shapes.len() {
        nodes.push(NodePlan {
            shape: shapes[node],
            tail: tails[node],
            event: events[node],
        })?;
    }
    Ok(nodes)
}
