//! Rule V8: the side of an `if` is used before the `if` decides again.
ghost use Rattle.std.specs.Prelude.{IfOk};
ghost use Rattle.demand_checks.specs.Judge.{AreShown, IsJudge};
ghost use Rattle.loan_check.specs.Choices.{AreUnshownChoices, choice_claims};

use demand_checks::{Judge, Pair, Place, Rest, SourceAtom};
use std::alloc::{AllocError, Global};

/// The records of the uses of sides that are not over before the `if` decides again.
///
/// Refuses only where memory is refused.
pub fn unshown_choices(
    alloc: Global,
    judge: &Judge<'_>,
    rests: &[Rest],
) -> Result<Vec<Pair>, AllocError>
    requires { IsJudge judge.now }
    ensures { IfOk result (λ pairs. AreUnshownChoices judge.now rests.now pairs.items) }
{
    let mut pairs = Vec::new(alloc);
    for rest in rests {
        if !choice_holds(judge, *rest) {
            pairs.push(rest.pair())?;
        }
    }
    Ok(pairs)
}

/// Whether a use that rests on the side of an `if` is over before the `if` decides again. True of every other use.
fn choice_holds(judge: &Judge<'_>, rest: Rest) -> bool
    requires { IsJudge judge.now }
    ensures { AreShown judge.now (choice_claims judge.now.deeds.items rest) result }
{
    match rest.atom {
        SourceAtom::Choice { site } => judge.used_by(rest.user, 1, Place::next_begin_of(site)),
        _ => true,
    }
}
