//! Rule V7: a register is not set between a read of it and the end of a use of what was read.
ghost use Rattle.std.specs.Prelude.{map, IfOk};
ghost use Rattle.demand_checks.specs.Judge.{AreShown, IsJudge, IsShown};
ghost use Rattle.loan_check.specs.Registers.{AreSets, AreUnshownReads, here_claim, read_claims, register_claims};

use crate::elsewhere::is_among;
use demand_checks::{Judge, Pair, Place, Rest, Sites, SourceAtom};
use std::alloc::{AllocError, Global};

/// The records of the uses of registers before whose end the register may be set. `others` are the registers that other threads set.
///
/// Refuses only where memory is refused.
pub fn unshown_reads(
    alloc: Global,
    judge: &Judge<'_>,
    sets: &Sites,
    others: &[u32],
    rests: &[Rest],
) -> Result<Vec<Pair>, AllocError>
    requires judge { IsJudge judge.now }
    requires sets { AreSets judge.now.deeds.items sets.now }
    ensures { IfOk result (λ pairs. AreUnshownReads judge.now others.now rests.now pairs.items) }
{
    let mut pairs = Vec::new(alloc);
    for rest in rests {
        if !register_holds(judge, sets, others, *rest) {
            pairs.push(rest.pair())?;
        }
    }
    Ok(pairs)
}

/// Whether a use that rests on a register is over before the register may be set. True of every other use.
fn register_holds(judge: &Judge<'_>, sets: &Sites, others: &[u32], rest: Rest) -> bool
    requires judge { IsJudge judge.now }
    requires sets { AreSets judge.now.deeds.items sets.now }
    ensures { AreShown judge.now (register_claims others.now judge.now.deeds.items rest) result }
{
    match rest.atom {
        SourceAtom::Reg { site, reg } => {
            read_holds(judge, sets.row(reg), is_among(reg, others), rest.user, site)
        }
        _ => true,
    }
}

/// Whether a use of what the act of a site reads of a register is over before the register is set, at one of these sites or elsewhere.
/// A use that is over as it reads is.
fn read_holds(judge: &Judge<'_>, sets: &[u32], elsewhere: bool, user: u32, site: u32) -> bool
    requires { IsJudge judge.now }
    ensures { AreShown judge.now (read_claims elsewhere judge.now.deeds.items user site sets.now) result }
{
    if judge.used_by(user, 0, Place::begin_of(site)) {
        return true;
    }
    !elsewhere && sets_hold(judge, sets, user, site)
}

/// Whether a use of what the act of a site reads is over before each of these sites sets the register.
fn sets_hold(judge: &Judge<'_>, sets: &[u32], user: u32, site: u32) -> bool
    requires { IsJudge judge.now }
    ensures { AreShown judge.now (map (here_claim judge.now.deeds.items user site) sets.now) result }
{
    for set in sets {
        if !set_holds(judge, *set, user, site) {
            return false;
        }
    }
    true
}

/// Whether a use is over as it reads, or else before a `set` that begins after the read, in this turn and in the next.
fn set_holds(judge: &Judge<'_>, set: u32, user: u32, site: u32) -> bool
    requires { IsJudge judge.now }
    ensures { IsShown judge.now (here_claim judge.now.deeds.items user site set) result }
{
    let read = Place::begin_of(site);
    judge.used_by(user, 0, read)
        || ((judge.precedes(Place::end_of(set), 0, read)
            || judge.used_by(user, 0, Place::begin_of(set)))
            && judge.used_by(user, 0, Place::next_begin_of(set)))
}
