//! The places of the acts of a term in tree order, each act before the acts inside it.
ghost use Rattle.std.specs.Prelude.{◌≡◌, ◌++◌, ◌∷◌, IfOk};
ghost use Rattle.core_term.specs.View.{places_of, places_in};

use crate::{CoreAct, CoreKind, CoreTerm};
use std::alloc::AllocError;

/// Adds the places of the acts of `term` at the end of `places`.
#[cycle(places)]
pub fn add_places(term: &CoreTerm, places: &mut Vec<u32>) -> Result<(), AllocError>
    ensures { IfOk result (λ _. places.new.items ≡ places.old.items ++ places_of term.now) }
{
    match term {
        CoreTerm::One(act) => add_act_places(act, places),
        CoreTerm::Then(act, rest) | CoreTerm::Both(act, rest) => {
            add_act_places(act, places)?;
            add_places(rest, places)
        }
    }
}

#[cycle(places)]
fn add_act_places(act: &CoreAct, places: &mut Vec<u32>) -> Result<(), AllocError>
    ensures { IfOk result (λ _. places.new.items ≡ places.old.items ++ (act.now.at ∷ places_in act.now.kind)) }
{
    places.push(act.at)?;
    match &act.kind {
        CoreKind::If { yes, no, .. } => {
            add_places(yes, places)?;
            match no {
                None => Ok(()),
                Some(other) => add_places(other, places),
            }
        }
        CoreKind::Block(inner) => add_places(inner, places),
        _ => Ok(()),
    }
}
