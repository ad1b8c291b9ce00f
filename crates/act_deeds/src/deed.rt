//! What each act of a thread does to a register or a port, and which acts decide.
ghost use Rattle.std.specs.Prelude.{◌≡◌, ◌≤◌, ◌++◌, ◌∷◌, [], length, IfOk};
ghost use Rattle.core_term.specs.Numbering.{Numbered};
ghost use Rattle.core_term.specs.Widths.{Widths};
ghost use Rattle.core_term.specs.View.{term_of};
ghost use Rattle.act_deeds.specs.Deeds.{AreDeeds, deed_of, deeds_in, deeds_of};

use core_term::{CoreAct, CoreKind, CoreTerm, CoreThread};
use std::alloc::{AllocError, Global};

/// What an act does to a register or a port, or that it decides.
#[derive(Clone, Copy, Debug, PartialEq, Eq)]
pub enum Deed {
    /// It sets this register.
    Sets(u32),
    /// It sends on this port.
    Sends(u32),
    /// It receives from this port.
    Receives(u32),
    /// It is an `if`, which decides for one of its sides.
    Decides,
    /// None of these.
    Other,
}

/// What the acts of a thread do, by their sites.
///
/// Refuses only where memory is refused.
pub fn deeds_of(alloc: Global, thread: &CoreThread) -> Result<Vec<Deed>, AllocError>
    ensures deeds { IfOk result (λ deeds. (widths : Widths) → AreDeeds (term_of widths thread.now) deeds.items) }
    ensures few { IfOk result (λ deeds. length deeds.items ≤ 512) }
    ensures numbered { (widths : Widths) → Numbered [] 0 (term_of widths thread.now) }
{
    let mut deeds = Vec::new(alloc);
    add_deeds(thread.body(), &mut deeds)?;
    Ok(deeds)
}

/// What an act of a kind does.
fn deed_of(kind: &CoreKind) -> Deed
    ensures { result ≡ deed_of kind.now }
{
    match kind {
        CoreKind::Set { reg, .. } => Deed::Sets(*reg),
        CoreKind::Send { port, .. } => Deed::Sends(*port),
        CoreKind::Recv { port } => Deed::Receives(*port),
        CoreKind::If { .. } => Deed::Decides,
        _ => Deed::Other,
    }
}

/// Adds what the acts of a term do at the end of `deeds`.
#[cycle(deeds)]
fn add_deeds(term: &CoreTerm, deeds: &mut Vec<Deed>) -> Result<(), AllocError>
    ensures { IfOk result (λ _. deeds.new.items ≡ deeds.old.items ++ deeds_of term.now) }
{
    match term {
        CoreTerm::One(act) => add_act_deeds(act, deeds),
        CoreTerm::Then(act, rest) | CoreTerm::Both(act, rest) => {
            add_act_deeds(act, deeds)?;
            add_deeds(rest, deeds)
        }
    }
}

#[cycle(deeds)]
fn add_act_deeds(act: &CoreAct, deeds: &mut Vec<Deed>) -> Result<(), AllocError>
    ensures { IfOk result (λ _. deeds.new.items ≡ deeds.old.items ++ (deed_of act.now.kind ∷ deeds_in act.now.kind)) }
{
    deeds.push(deed_of(&act.kind))?;
    match &act.kind {
        CoreKind::If { yes, no, .. } => {
            add_deeds(yes, deeds)?;
            match no {
                None => Ok(()),
                Some(other) => add_deeds(other, deeds),
            }
        }
        CoreKind::Block(inner) => add_deeds(inner, deeds),
        _ => Ok(()),
    }
}
