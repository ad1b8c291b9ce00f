//! The nodes of the tail: those that are reached back from the end of the body.
ghost use Rattle.std.specs.Prelude.{◌≡◌, ◌<◌, ◌≤◌, ℕ, length, replicate, false, IfOk};
ghost use Rattle.order_rules.specs.Entry.{IsEarlier};
ghost use Rattle.pulse_nets.specs.Pulses.{form_of};
ghost use Rattle.turn_plans.specs.Read.{AreTails, AreEarlier, marked_by};

use event_graph::EvId;
use machine_parts::Shape;
use std::alloc::{AllocError, Global};

/// Whether each node is reached back from the last one through the forms Same, Join and Merge.
pub fn tails_of(alloc: Global, shapes: &[Shape], last: EvId) -> Result<Vec<bool>, AllocError>
    requires last { last < length shapes.now }
    requires earlier { AreEarlier shapes.now }
    ensures { IfOk result (λ tails. AreTails shapes.now last tails.items) }
{
    let mut tails = vec![in alloc; false; shapes.len()]?;
    mark_tails(shapes, last, &mut tails);
    Ok(tails)
}

/// Marks them, where none is marked. Predecessors are earlier nodes, so a node is passed after all that come from it.
fn mark_tails(shapes: &[Shape], last: EvId, tails: &mut [bool])
    requires last { last < length shapes.now }
    requires earlier { AreEarlier shapes.now }
    requires none { tails.old ≡ replicate (length shapes.now) false }
    ensures { AreTails shapes.now last tails.new }
{
    tails[last as usize] = true;
    let mut node = shapes.len();
    while node > 0 {
        node -= 1;
        if tails[node] {
            mark_predecessors(shapes[node], tails);
        }
    }
}

/// Marks the predecessors of a node of the tail, where it comes with them.
fn mark_predecessors(shape: Shape, tails: &mut [bool])
    requires { IsEarlier (length tails.old) (form_of shape) }
    ensures { tails.new ≡ marked_by (form_of shape) tails.old }
{
    match shape {
        Shape::Same(from) => tails[from as usize] = true,
        Shape::Join(first, second) | Shape::Merge(first, second) => {
            tails[first as usize] = true;
            tails[second as usize] = true;
        }
        _ => {}
    }
}
