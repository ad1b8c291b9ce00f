//! One cycle of the acts of a turn.
ghost use Rattle.std.specs.Prelude.{◌≡◌};
ghost use Rattle.sim_laws.specs.Advance.{later_made};
ghost use Rattle.source_sim.specs.NowSeen.{act_now, term_now, ActFits, TermFits, IsSeen, advance_now, advance_act_now, inside_now};

use crate::act::{alone, close, unit, visit};
use crate::now::Now;
use anvil_bits::Bits;
use core_term::{CoreAct, CoreKind, CoreTerm};
use sim_laws::ActState;

/// One cycle of a term: what it has made, if it has ended by now.
///
/// An act that is reached for the first time begins.
#[cycle(advance)]
pub fn advance(term: &CoreTerm, now: &Now, acts: &mut [ActState]) -> Option<Bits>
    requires fits { TermFits now.now (term_now now.now term.now) }
    requires seen { IsSeen now.now acts.old }
    ensures { advance_now now.now (term_now now.now term.now) acts.old ≡ record { made = result; acts = acts.new } }
{
    match term {
        CoreTerm::One(act) => advance_act(act, now, acts),
        CoreTerm::Then(act, rest) => match advance_act(act, now, acts) {
            None => None,
            Some(_) => advance(rest, now, acts),
        },
        CoreTerm::Both(act, rest) => {
            let first = advance_act(act, now, acts);
            let second = advance(rest, now, acts);
            later_of(first, second)
        }
    }
}

#[cycle(advance)]
fn advance_act(act: &CoreAct, now: &Now, acts: &mut [ActState]) -> Option<Bits>
    requires fits { ActFits now.now (act_now now.now act.now) }
    requires seen { IsSeen now.now acts.old }
    ensures step { advance_act_now now.now (act_now now.now act.now) acts.old
        ≡ record { made = result; acts = acts.new } }
    ensures seen { IsSeen now.now acts.new }
{
    visit(act, now, acts);
    let made = inside(act, now, acts);
    close(act.site as usize, made, acts)
}

/// What stands inside an act that was reached goes on, and the act tells what it has made by now.
#[cycle(advance)]
fn inside(act: &CoreAct, now: &Now, acts: &mut [ActState]) -> Option<Bits>
    requires fits { ActFits now.now (act_now now.now act.now) }
    requires seen { IsSeen now.now acts.old }
    ensures { inside_now now.now (act_now now.now act.now) acts.old ≡ record { made = result; acts = acts.new } }
{
    let site = act.site as usize;
    match &act.kind {
        CoreKind::If { yes, no, word, .. } => {
            let chosen = acts[site].taken.value() == 1;
            match no {
                None => {
                    if chosen {
                        let made = advance(yes, now, acts);
                        unit(made, acts[site].made)
                    } else {
                        Some(acts[site].made)
                    }
                }
                Some(other) => {
                    let made = advance(if chosen { yes } else { other }, now, acts);
                    match word {
                        None => unit(made, acts[site].made),
                        Some(_) => made,
                    }
                }
            }
        }
        CoreKind::Block(inner) => advance(inner, now, acts),
        _ => alone(act, now, acts),
    }
}

/// What the later of two has made, if both have ended.
fn later_of(first: Option<Bits>, second: Option<Bits>) -> Option<Bits>
    ensures { result ≡ later_made first second }
{
    match first {
        None => None,
        Some(_) => second,
    }
}
