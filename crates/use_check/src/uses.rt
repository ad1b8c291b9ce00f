//! The violations of V2 and V6.
ghost use Rattle.std.specs.Prelude.{◌∷◌, [], IfOk};
ghost use Rattle.core_term.specs.declared.rules.Rule.TheVariants as rule;
ghost use Rattle.demand_checks.specs.Thread.{AreViolationsOf, IsReady};

use crate::made::unshown_made;
use crate::wires::unshown_wires;
use demand_checks::{CoreProc, Elab, Judge, Lasts, Order, Rule, Sites, Violation, list_rule};
use std::alloc::{AllocError, Global};

/// The violations of V2 and V6 of a thread: exactly the demands that do not hold, in order of rule, first and second site, each once.
///
/// Refuses only where memory is refused.
pub fn use_violations(
    alloc: Global,
    proc: &CoreProc,
    thread: u32,
    elab: &Elab<'_>,
    order: &Order,
    lasts: &Lasts,
) -> Result<Vec<Violation>, AllocError>
    requires { IsReady proc.now thread elab.now order.now lasts.now }
    ensures { IfOk result (λ found. AreViolationsOf proc.now thread (rule.V2 ∷ rule.V6 ∷ []) found.items) }
{
    let judge = Judge::new(alloc, proc, thread, elab, order, lasts)?;
    let reads = judge.reads(alloc)?;
    let rests = judge.rests(alloc)?;
    let on_ports = Sites::on_ports(alloc, &judge.deeds)?;
    let mut made = unshown_made(alloc, &judge, &reads)?;
    let mut wires = unshown_wires(alloc, &judge, &on_ports, &rests)?;
    let mut violations = Vec::new(alloc);
    list_rule(Rule::V2, &mut made, &mut violations)?;
    list_rule(Rule::V6, &mut wires, &mut violations)?;
    Ok(violations)
}
