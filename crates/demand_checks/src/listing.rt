//! The records of one rule after the other, as the violations of a thread.
ghost use Rattle.std.specs.Prelude.{◌≡◌, ◌++◌, map, true, IfOk};
ghost use Rattle.std.specs.List.{Any, Contains};
ghost use Rattle.std.specs.List.Sorted.{IsStrictlySortedBy};
ghost use Rattle.demand_checks.specs.Found.{AddsRule};
ghost use Rattle.demand_checks.specs.Pairs.{AreSettled, violation};

use crate::Pair;
use core_term::{Rule, Violation};
use std::alloc::AllocError;

/// Adds the records of a rule at the end of `violations`, in order and each once. The pairs are put in order in their place.
///
/// Where `violations` lists those of some rules, and this rule comes after them, it then lists those of this rule too. Refuses only
/// where memory is refused.
pub fn list_rule(
    rule: Rule,
    pairs: &mut Vec<Pair>,
    violations: &mut Vec<Violation>,
) -> Result<(), AllocError>
    ensures { IfOk result (λ _. AddsRule rule pairs.old.items violations.old.items violations.new.items) }
{
    settle(pairs);
    add_all(rule, pairs, violations)?;
    Ok(())
}

/// Puts items in order, each once.
fn sort_once<T: Ord + Drop>(items: &mut Vec<T>)
    ensures sorted { IsStrictlySortedBy T.cmp items.new.items }
    ensures sound { (item : T) → Contains items.new.items item → Contains items.old.items item }
    ensures whole { (item : T) → Contains items.old.items item → Any (λ other. T.eq item other ≡ true) items.new.items }
{
    items.sort_unstable();
    items.dedup();
}

/// Puts pairs in order, each once.
fn settle(pairs: &mut Vec<Pair>)
    ensures { AreSettled pairs.old.items pairs.new.items }
{
    sort_once(pairs);
}

/// Adds the violations of a rule at the end.
fn add_all(rule: Rule, pairs: &[Pair], violations: &mut Vec<Violation>) -> Result<(), AllocError>
    ensures { IfOk result (λ _. violations.new.items ≡ violations.old.items ++ map (violation rule) pairs.now) }
{
    for pair in pairs {
        violations.push(Violation {
            rule,
            first: pair.first,
            second: pair.second,
        })?;
    }
    Ok(())
}
