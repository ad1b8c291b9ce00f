//! Rule V2: a variable is made before it is read.
ghost use Rattle.std.specs.Prelude.{IfOk};
ghost use Rattle.demand_checks.specs.Judge.{AreShown, AreUnshown, IsJudge};
ghost use Rattle.use_check.specs.Made.{made_claims, own_pair};

use demand_checks::{Judge, Pair, Place};
use std::alloc::{AllocError, Global};

/// The records of the reads of variables that are not made before. A wait is no read.
///
/// Refuses only where memory is refused.
pub fn unshown_made(
    alloc: Global,
    judge: &Judge<'_>,
    reads: &[Pair],
) -> Result<Vec<Pair>, AllocError>
    requires { IsJudge judge.now }
    ensures { IfOk result (λ pairs. AreUnshown judge.now own_pair made_claims reads.now pairs.items) }
{
    let mut pairs = Vec::new(alloc);
    for read in reads {
        if !made_holds(judge, *read) {
            pairs.push(*read)?;
        }
    }
    Ok(pairs)
}

/// Whether the act of the second site, which makes a variable, ends before the act of the first begins, which reads it.
fn made_holds(judge: &Judge<'_>, read: Pair) -> bool
    requires { IsJudge judge.now }
    ensures { AreShown judge.now (made_claims read) result }
{
    judge.precedes(Place::end_of(read.second), 0, Place::begin_of(read.first))
}
