//! The violations of the rules on two acts that do the same.
ghost use Rattle.std.specs.Prelude.{◌∷◌, [], ◌++◌, List, IfOk};
ghost use Rattle.core_term.specs.declared.rules.Rule.{Rule as RuleSeen};
ghost use Rattle.core_term.specs.declared.rules.Rule.TheVariants.{V3, V4, V5};
ghost use Rattle.core_term.specs.AcceptedFile.{process_in};
ghost use Rattle.demand_checks.specs.Found.{AllEarlier, AreViolations};
ghost use Rattle.demand_checks.specs.Judge.{IsJudge, body_at, process_at};
ghost use Rattle.demand_checks.specs.Thread.{IsReady, body_of};
ghost use Rattle.send_check.specs.Settled.{IsOwn};

use crate::pairs::pairs_of;
use core_term::{CoreProc, Rule, Violation};
use demand_checks::{Elab, Judge, Lasts, Order, list_rule};
use std::alloc::{AllocError, Global};

/// The violations of V3, V4 and V5 of a thread: exactly the demands of these rules that fail, by rule, first and second site, each once.
/// It takes the graph of the thread's two turns, the order of the graph, and the tables of the lives of what the thread sends.
///
/// Refuses only where memory is refused.
pub fn send_violations(
    alloc: Global,
    proc: &CoreProc,
    thread: u32,
    elab: &Elab<'_>,
    order: &Order,
    lasts: &Lasts,
) -> Result<Vec<Violation>, AllocError>
    requires { IsReady proc.now thread elab.now order.now lasts.now }
    ensures { IfOk result (λ violations.
        AreViolations (process_in proc.now) thread (body_of proc.now thread) (V3 ∷ V4 ∷ V5 ∷ []) violations.items) }
{
    let judge = Judge::new(alloc, proc, thread, elab, order, lasts)?;
    let mut violations = Vec::new(alloc);
    add_rule(alloc, &judge, Rule::V3, &mut violations)?;
    add_rule(alloc, &judge, Rule::V4, &mut violations)?;
    add_rule(alloc, &judge, Rule::V5, &mut violations)?;
    Ok(violations)
}

/// Adds the violations of a rule.
fn add_rule(
    alloc: Global,
    judge: &Judge<'_>,
    rule: Rule,
    violations: &mut Vec<Violation>,
) -> Result<(), AllocError>
    requires judge { IsJudge judge.now }
    requires rule { IsOwn rule }
    ensures { IfOk result (λ _. (rules : List RuleSeen) →
        AreViolations (process_at judge.now) judge.now.number (body_at judge.now) rules violations.old.items →
        AllEarlier rules rule →
        AreViolations (process_at judge.now) judge.now.number (body_at judge.now) (rules ++ rule ∷ [])
        violations.new.items) }
{
    let mut pairs = pairs_of(alloc, judge, rule)?;
    list_rule(rule, &mut pairs, violations)?;
    Ok(())
}
