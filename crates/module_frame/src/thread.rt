//! The states of a thread.
ghost use Rattle.std.specs.Prelude.{ℕ, ◌≡◌, ◌<◌, ◌+◌, IfOk, length};
ghost use Rattle.machine_parts.specs.Frames.{AreStates};
ghost use Rattle.machine_parts.specs.Parts.{bit_at, form_in};
ghost use Rattle.act_deeds.specs.Deeds.{deed_at};
ghost use Rattle.module_frame.specs.Slots.{node_slots, site_slots, thread_slots};
ghost use Rattle.module_frame.specs.Drafts.{HasRoom, Grown, NodeHeld, SiteHeld, site_at};

use crate::draft::{FrameDraft, SiteState};
use machine_parts::{Deed, Keep, NodePlan, Signal, ThreadStates, TurnPlan};
use std::alloc::{AllocError, Global};

/// The registers of the acts of a thread, by their sites.
#[derive(Drop)]
pub struct SiteStates {
    /// The kept side of each `if`.
    pub sides: Vec<Signal>,
    /// Whether each `send` began last of its port.
    pub newest: Vec<Signal>,
}

/// Adds the states of the nodes of a thread.
pub fn add_nodes(
    alloc: Global,
    draft: &mut FrameDraft,
    thread: u32,
    nodes: &[NodePlan],
) -> Result<Vec<Signal>, AllocError>
    requires room { HasRoom draft.old (length nodes.now) }
    ensures grown { IfOk result (λ states. Grown draft.old draft.new (node_slots thread 0 nodes.now)) }
    ensures count { IfOk result (λ states. length states.items ≡ length nodes.now) }
    ensures held { IfOk result (λ states. (node : ℕ) → node < length nodes.now →
        NodeHeld draft.new.frame thread node (form_in nodes.now node) (bit_at states.items node)) }
{
    let mut states = Vec::new(alloc);
    for plan in nodes {
        let node = states.len() as u32;
        // Taken apart and put together again, since the prover has to see the type of the operand.
        let Signal { operand, width } = draft.add_node(thread, node, plan.shape)?;
        states.push(Signal { operand, width })?;
    }
    Ok(states)
}

/// Adds the states of the acts of a thread.
pub fn add_sites(
    alloc: Global,
    draft: &mut FrameDraft,
    thread: u32,
    deeds: &[Deed],
) -> Result<SiteStates, AllocError>
    requires room { HasRoom draft.old (length deeds.now) }
    ensures grown { IfOk result (λ states. Grown draft.old draft.new (site_slots thread 0 deeds.now)) }
    ensures side_count { IfOk result (λ states. length states.sides.items ≡ length deeds.now) }
    ensures newest_count { IfOk result (λ states. length states.newest.items ≡ length deeds.now) }
    ensures held { IfOk result (λ states. (site : ℕ) → site < length deeds.now →
        SiteHeld draft.new.frame thread site (deed_at deeds.now site)
        (site_at states.sides.items states.newest.items site)) }
{
    let mut sides = Vec::new(alloc);
    let mut newests = Vec::new(alloc);
    for deed in deeds {
        let site = sides.len() as u32;
        let SiteState { side, newest } = draft.add_site(thread, site, *deed)?;
        // Taken apart and put together again, since the prover has to see the type of the operand.
        let Signal { operand, width } = side;
        sides.push(Signal { operand, width })?;
        newests.push(newest)?;
    }
    Ok(SiteStates {
        sides,
        newest: newests,
    })
}

/// Adds the states of a thread.
pub fn add_thread(
    alloc: Global,
    draft: &mut FrameDraft,
    thread: u32,
    plan: &TurnPlan,
) -> Result<ThreadStates, AllocError>
    requires room { HasRoom draft.old (1 + (length plan.now.nodes.items + length plan.now.deeds.items)) }
    ensures grown { IfOk result (λ states. Grown draft.old draft.new (thread_slots thread plan.now)) }
    ensures states { IfOk result (λ states. AreStates draft.new.frame thread plan.now states) }
{
    let started = draft.add_state(Keep::Started(thread), 1)?;
    let nodes = add_nodes(alloc, draft, thread, &plan.nodes)?;
    let sites = add_sites(alloc, draft, thread, &plan.deeds)?;
    Ok(ThreadStates {
        started,
        nodes,
        sides: sites.sides,
        newest: sites.newest,
    })
}
