//! What the threads of a process take: the registers that they set, and the endpoints that they name.
ghost use Rattle.std.specs.Prelude.{OnOk, ◌∷◌, []};
ghost use Rattle.anvil_tree.specs.View.{act_of, term_of};
ghost use Rattle.core_file.specs.ThreadChecks.{registers_set, registers_set_in, endpoints_named, endpoints_named_in};
ghost use Rattle.term_check.specs.Taken.{Takes, taken_of};

use anvil_lexer::Name;
use anvil_tree::{Act, ActKind, Term};
use indexmap::IndexSet;
use std::alloc::AllocError;

/// The registers that earlier threads set, and the endpoints that they name.
#[derive(Drop)]
pub struct Taken {
    pub registers: IndexSet<Name>,
    pub endpoints: IndexSet<Name>,
}

/// Takes what a term takes.
#[cycle(take)]
#[tactic(auto, using(crate::proofs::TakenMore::takes_both, crate::proofs::TakenMore::takes_none))]
pub fn take_term(term: &Term, taken: &mut Taken) -> Result<(), AllocError>
    ensures { OnOk result (Takes (taken_of taken.old) (registers_set (term_of term.now)) (endpoints_named (term_of term.now)) (taken_of taken.new)) }
{
    match term {
        Term::One(act) => take_act(act, taken),
        Term::Then(_, act, rest) => {
            take_act(act, taken)?;
            take_term(rest, taken)
        }
        Term::Both(_, act, rest) => {
            take_act(act, taken)?;
            take_term(rest, taken)
        }
    }
}

#[cycle(take)]
#[tactic(auto, using(crate::proofs::TakenMore::takes_both, crate::proofs::TakenMore::takes_none))]
fn take_act(act: &Act, taken: &mut Taken) -> Result<(), AllocError>
    ensures { OnOk result (Takes (taken_of taken.old) (registers_set_in (act_of act.now)) (endpoints_named_in (act_of act.now)) (taken_of taken.new)) }
{
    match &act.kind {
        ActKind::Set { register, .. } => take_register(taken, register),
        ActKind::Send { endpoint, .. } | ActKind::Recv { endpoint, .. } => {
            take_endpoint(taken, endpoint)
        }
        ActKind::If { yes, no, .. } => match no {
            None => take_term(yes, taken),
            Some(no) => {
                take_term(yes, taken)?;
                take_term(no, taken)
            }
        },
        ActKind::Block(body) => take_term(body, taken),
        ActKind::Cycle { .. } | ActKind::Pure(_) => Ok(()),
    }
}

fn take_register(taken: &mut Taken, register: &Name) -> Result<(), AllocError>
    ensures { OnOk result (Takes (taken_of taken.old) (register.now ∷ []) [] (taken_of taken.new)) }
{
    taken.registers.insert(register.copy())?;
    Ok(())
}

fn take_endpoint(taken: &mut Taken, endpoint: &Name) -> Result<(), AllocError>
    ensures { OnOk result (Takes (taken_of taken.old) [] (endpoint.now ∷ []) (taken_of taken.new)) }
{
    taken.endpoints.insert(endpoint.copy())?;
    Ok(())
}
