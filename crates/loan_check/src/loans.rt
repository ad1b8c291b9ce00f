//! The violations of V7 and V8.
ghost use Rattle.std.specs.Prelude.{◌∷◌, [], IfOk};
ghost use Rattle.core_term.specs.declared.rules.Rule.TheVariants as rule;
ghost use Rattle.demand_checks.specs.Thread.{AreViolationsOf, IsReady};

use crate::choices::unshown_choices;
use crate::elsewhere::set_elsewhere;
use crate::registers::unshown_reads;
use demand_checks::{CoreProc, Elab, Judge, Lasts, Order, Rule, Sites, Violation, list_rule};
use std::alloc::{AllocError, Global};

/// The violations of V7 and V8 of a thread: exactly the demands that do not hold, in order of rule, first and second site, each once.
///
/// Refuses only where memory is refused.
pub fn loan_violations(
    alloc: Global,
    proc: &CoreProc,
    thread: u32,
    elab: &Elab<'_>,
    order: &Order,
    lasts: &Lasts,
) -> Result<Vec<Violation>, AllocError>
    requires { IsReady proc.now thread elab.now order.now lasts.now }
    ensures { IfOk result (λ found. AreViolationsOf proc.now thread (rule.V7 ∷ rule.V8 ∷ []) found.items) }
{
    let judge = Judge::new(alloc, proc, thread, elab, order, lasts)?;
    let rests = judge.rests(alloc)?;
    let sets = Sites::setting(alloc, &judge.deeds)?;
    let others = set_elsewhere(alloc, proc, thread)?;
    let mut reads = unshown_reads(alloc, &judge, &sets, &others, &rests)?;
    let mut choices = unshown_choices(alloc, &judge, &rests)?;
    let mut violations = Vec::new(alloc);
    list_rule(Rule::V7, &mut reads, &mut violations)?;
    list_rule(Rule::V8, &mut choices, &mut violations)?;
    Ok(violations)
}
