//! The pairs of sites that clash by a rule.
ghost use Rattle.std.specs.Prelude.{◌≡◌, ◌+◌, IfOk, length};
ghost use Rattle.demand_checks.specs.Found.{AreFound};
ghost use Rattle.demand_checks.specs.Judge.{IsJudge, body_at, process_at};
ghost use Rattle.send_check.specs.Settled.{AreFoundTo, IsOwn, Settles};

use crate::clash::clash;
use core_term::Rule;
use demand_checks::{Judge, Pair};
use std::alloc::{AllocError, Global};

/// The pairs of sites that break a rule.
///
/// Refuses only where memory is refused.
pub fn pairs_of(alloc: Global, judge: &Judge<'_>, rule: Rule) -> Result<Vec<Pair>, AllocError>
    requires judge { IsJudge judge.now }
    requires rule { IsOwn rule }
    ensures { IfOk result (λ pairs.
        AreFound (process_at judge.now) judge.now.number (body_at judge.now) rule pairs.items) }
{
    let mut pairs = Vec::new(alloc);
    for first in 0..judge.deeds.len() as u32 {
        add_pairs(judge, rule, first, &mut pairs)?;
    }
    Ok(pairs)
}

/// Adds the pairs with a first site.
fn add_pairs(
    judge: &Judge<'_>,
    rule: Rule,
    first: u32,
    pairs: &mut Vec<Pair>,
) -> Result<(), AllocError>
    requires judge { IsJudge judge.now }
    requires rule { IsOwn rule }
    requires before { AreFoundTo judge.now rule first 0 pairs.old.items }
    ensures { IfOk result (λ _. AreFoundTo judge.now rule (first + 1) 0 pairs.new.items) }
{
    for second in 0..judge.deeds.len() as u32 {
        if breaks(judge, rule, first, second) {
            pairs.push(Pair { first, second })?;
        }
    }
    Ok(())
}

/// Whether some demand of a rule on two sites fails.
fn breaks(judge: &Judge<'_>, rule: Rule, first: u32, second: u32) -> bool
    requires judge { IsJudge judge.now }
    requires rule { IsOwn rule }
    ensures { Settles judge.now rule first second result }
{
    clash(judge, rule, first, second)
}
