//! Whether a term is tail-stepped, or the act at which it fails first.
ghost use Rattle.std.specs.Prelude.{◌≡◌, None, Some, MatchResult};
ghost use Rattle.anvil_tree.specs.View.{act_of, term_of};
ghost use Rattle.first_check.specs.Check.{first_refusal};
ghost use Rattle.core_file.specs.TailChecks.{tail_checks, tail_checks_in};

use anvil_tree::{Act, ActKind, Term};
use core_file::NameErr;

/// Whether the end of a turn of the term takes a cycle, and every `send` and `recv` ends before it.
#[cycle(tail)]
#[tactic(auto, using(first_check::proofs::Walks::passes, first_check::proofs::Walks::stops))]
pub fn check_tail(term: &Term) -> Result<(), NameErr>
    ensures { MatchResult result
        (λ _. first_refusal (tail_checks (term_of term.now)) ≡ None)
        (λ fault. first_refusal (tail_checks (term_of term.now)) ≡ Some fault) }
{
    match term {
        Term::One(act) => check_tail_act(act),
        Term::Then(_, _, rest) => check_tail(rest),
        Term::Both(None, act, rest) => {
            check_tail_act(act)?;
            check_tail(rest)
        }
        Term::Both(Some(_), _, _) => Err(NameErr::NotTail { at: term.at() }),
    }
}

#[cycle(tail)]
#[tactic(auto, using(first_check::proofs::Walks::passes, first_check::proofs::Walks::stops))]
fn check_tail_act(act: &Act) -> Result<(), NameErr>
    ensures { MatchResult result
        (λ _. first_refusal (tail_checks_in (act_of act.now)) ≡ None)
        (λ fault. first_refusal (tail_checks_in (act_of act.now)) ≡ Some fault) }
{
    match &act.kind {
        ActKind::Cycle { .. } | ActKind::Set { .. } => Ok(()),
        ActKind::Block(inner) => check_tail(inner),
        ActKind::If { yes, no, .. } => match no {
            None => Err(NameErr::NotTail { at: act.at }),
            Some(other) => {
                check_tail(yes)?;
                check_tail(other)
            }
        },
        ActKind::Send { .. } | ActKind::Recv { .. } | ActKind::Pure(_) => Err(NameErr::NotTail {
            at: act.at,
        }),
    }
}
