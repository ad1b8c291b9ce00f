//! Whether two acts clash by a rule.
ghost use Rattle.std.specs.Prelude.{◌≡◌, ℤ};
ghost use Rattle.demand_checks.specs.Answers.{Answers};
ghost use Rattle.demand_checks.specs.Judge.{IsJudge, TellOf};
ghost use Rattle.send_check.specs.Clashes.{clash, one_ends, one_is_over, same_register, same_source, same_target, sends_clash};
ghost use Rattle.send_check.specs.Settled.{IsOwn};

use core_term::Rule;
use demand_checks::{Deed, Judge, Place};

/// Whether the acts of two sites do the same to one register or port, and do not keep what the rule demands.
pub fn clash(judge: &Judge<'_>, rule: Rule, first: u32, second: u32) -> bool
    requires judge { IsJudge judge.now }
    requires rule { IsOwn rule }
    ensures { (answers : Answers) → TellOf judge.now answers →
        result ≡ clash answers judge.now.deeds.items rule first second }
{
    let one = judge.deed(first);
    let other = judge.deed(second);
    match rule {
        Rule::V3 => same_register(one, other)
            && first < second
            && !one_ends(judge, first, 0, second),
        Rule::V4 => same_source(one, other) && first < second && !one_ends(judge, first, 1, second),
        _ => same_target(one, other) && sends_clash(judge, first, second),
    }
}

/// Whether both acts set one register.
fn same_register(one: Deed, other: Deed) -> bool
    ensures { result ≡ same_register one other }
{
    match (one, other) {
        (Deed::Sets(register), Deed::Sets(same)) => register == same,
        _ => false,
    }
}

/// Whether both acts receive from one port.
fn same_source(one: Deed, other: Deed) -> bool
    ensures { result ≡ same_source one other }
{
    match (one, other) {
        (Deed::Receives(port), Deed::Receives(same)) => port == same,
        _ => false,
    }
}

/// Whether both acts send on one port.
fn same_target(one: Deed, other: Deed) -> bool
    ensures { result ≡ same_target one other }
{
    match (one, other) {
        (Deed::Sends(port), Deed::Sends(same)) => port == same,
        _ => false,
    }
}

/// Whether one of two acts ends, and d cycles pass, before the other begins.
fn one_ends(judge: &Judge<'_>, first: u32, d: i32, second: u32) -> bool
    requires { IsJudge judge.now }
    ensures { (answers : Answers) → TellOf judge.now answers → result ≡ one_ends answers first d second }
{
    judge.precedes(Place::end_of(first), d, Place::begin_of(second))
        || judge.precedes(Place::end_of(second), d, Place::begin_of(first))
}

/// Whether the life of what one of two sends sent is over before the other begins.
fn one_is_over(judge: &Judge<'_>, first: u32, second: u32) -> bool
    requires { IsJudge judge.now }
    ensures { (answers : Answers) → TellOf judge.now answers → result ≡ one_is_over answers first second }
{
    judge.last_precedes(first, 1, Place::begin_of(second))
        || judge.last_precedes(second, 1, Place::begin_of(first))
}

/// Whether two sends of one port clash, in one turn or from one turn to the next.
fn sends_clash(judge: &Judge<'_>, first: u32, second: u32) -> bool
    requires { IsJudge judge.now }
    ensures { (answers : Answers) → TellOf judge.now answers → result ≡ sends_clash answers first second }
{
    !judge.last_precedes(first, 1, Place::next_begin_of(second))
        || (first < second && !one_is_over(judge, first, second))
}
