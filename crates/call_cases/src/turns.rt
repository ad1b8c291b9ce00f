//! The graph of two turns of a thread.
use accepted_file::example::counting_body;
use core_term::CoreThread;
use elaborator::elaborate;
use event_graph::{Bump, Graph, Kind};
use std::alloc::{AllocError, Global};

// Whether a graph is a chain of nodes of these kinds, each behind the one before it and outside each `if`.
fn is_chain(graph: &Graph<'_>, kinds: &[Kind]) -> bool {
    for event in 0..graph.count() {
        let node = graph.node(event);
        let kind = kinds.get(event as usize);
        if kind != Some(&node.kind)
            || node.preds.len() != event.min(1) as usize
            || !node.arms.is_empty()
        {
            return false;
        }
    }
    graph.count() as usize == kinds.len()
}

// Whether the graph of two turns of a thread that counts is so.
fn is_graph(
    alloc: Global,
    arena: &Bump,
    thread: &CoreThread,
    kinds: &[Kind],
) -> Result<bool, AllocError> {
    let elab = elaborate(alloc, arena, thread, 2)?;
    let same = is_chain(&elab.graph, kinds);
    drop(elab);
    Ok(same)
}

fn two_turns(alloc: Global, kinds: &[Kind]) -> Result<bool, AllocError> {
    let thread = CoreThread::new(alloc, counting_body(alloc, 0)?)?;
    let arena = Bump::new(alloc);
    let same = is_graph(alloc, &arena, &thread, kinds);
    drop(arena);
    drop(thread);
    same
}

/// `set r := *r + 8'd1 >> cycle 2`, two turns: after the start one cycle and two cycles, and the same again.
#[test]
fn two_turns_of_a_counter(rt: HostRuntime) {
    let kinds = [
        Kind::Start,
        Kind::After(1),
        Kind::After(2),
        Kind::After(1),
        Kind::After(2),
    ];
    assert!(rt; two_turns(rt.alloc(), &kinds) == Ok(true));
}
