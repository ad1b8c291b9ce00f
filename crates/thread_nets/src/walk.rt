//! The walk over terms and acts in tree order: each act draws what it has of its own, then the acts inside it, and then its
//! value, which is what it answers: a `recv` has the data of its port, an `if` that has a value that of the side that it
//! shows, a lone word its variable, and a chain its last part.
ghost use Rattle.std.specs.Prelude.{◌≡◌, Bool, List, IfOk, true, false};
ghost use Rattle.core_term.specs.Term.{Act, Expr, If, When};
ghost use Rattle.thread_nets.specs.Walk.{act_at, chain_at, term_at};
ghost use Rattle.thread_nets.specs.Walk.{ActDrawn, ActPlan, InsideDrawn, InsidePlan, TermDrawn, TermPlan};

use crate::act::draw_own;
use crate::setting::{Drawn, Walk, data_of, draw_pure, value_of, with_variable};
use core_term::{CoreAct, CoreKind, CoreTerm};
use module_nets::{Netlist, Signal, Variable};
use std::alloc::{AllocError, Global};
use turn_nets::bit_of;

/// Draws the nets of a term, and answers its value; that of a unit term has the width 0. Refuses only where memory is refused.
#[cycle(walk)]
pub fn draw_term(
    alloc: Global,
    netlist: &mut Netlist,
    walk: &Walk<'_>,
    variables: &[Variable],
    term: &CoreTerm,
    drawn: &mut Drawn,
) -> Result<Signal, AllocError>
    requires { (scope : List Act) ×
        TermPlan netlist.old walk.now drawn.old variables.now scope (term_at walk.now scope term.now) }
    ensures { IfOk result (λ value. (scope : List Act) →
        TermPlan netlist.old walk.now drawn.old variables.now scope (term_at walk.now scope term.now) →
        TermDrawn netlist.old netlist.new walk.now drawn.old drawn.new scope (term_at walk.now scope term.now) value) }
{
    match term {
        CoreTerm::One(act) => {
            let value = draw_act(alloc, netlist, walk, variables, act, drawn)?;
            Ok(value)
        }
        CoreTerm::Then(act, rest) => {
            let value = draw_chain(alloc, netlist, walk, variables, act, rest, drawn)?;
            Ok(value)
        }
        CoreTerm::Both(act, rest) => {
            let value = draw_chain(alloc, netlist, walk, variables, act, rest, drawn)?;
            Ok(value)
        }
    }
}

/// The same of an act and a rest, whether it begins with the act or where the act ends.
#[cycle(walk)]
fn draw_chain(
    alloc: Global,
    netlist: &mut Netlist,
    walk: &Walk<'_>,
    variables: &[Variable],
    act: &CoreAct,
    rest: &CoreTerm,
    drawn: &mut Drawn,
) -> Result<Signal, AllocError>
    requires { (together : Bool) × (scope : List Act) × TermPlan netlist.old walk.now drawn.old variables.now scope
        (chain_at together walk.now scope act.now rest.now) }
    ensures { IfOk result (λ value. (together : Bool) (scope : List Act) →
        TermPlan netlist.old walk.now drawn.old variables.now scope
        (chain_at together walk.now scope act.now rest.now) →
        TermDrawn netlist.old netlist.new walk.now drawn.old drawn.new scope
        (chain_at together walk.now scope act.now rest.now) value) }
{
    let value = draw_act(alloc, netlist, walk, variables, act, drawn)?;
    let longer = with_variable(alloc, variables, act.site, &value)?;
    let last = draw_term(alloc, netlist, walk, &longer, rest, drawn)?;
    Ok(last)
}

/// The same of an act.
#[cycle(walk)]
fn draw_act(
    alloc: Global,
    netlist: &mut Netlist,
    walk: &Walk<'_>,
    variables: &[Variable],
    act: &CoreAct,
    drawn: &mut Drawn,
) -> Result<Signal, AllocError>
    requires { (scope : List Act) × ActPlan netlist.old walk.now drawn.old variables.now scope
        (act_at walk.now scope act.now.site act.now.kind) }
    ensures { IfOk result (λ value. (scope : List Act) → ActPlan netlist.old walk.now drawn.old variables.now scope
        (act_at walk.now scope act.now.site act.now.kind) →
        ActDrawn netlist.old netlist.new walk.now drawn.old drawn.new scope
        (act_at walk.now scope act.now.site act.now.kind) value) }
{
    draw_own(netlist, walk, variables, act, drawn)?;
    let value = draw_inside(alloc, netlist, walk, variables, act.site, &act.kind, drawn)?;
    Ok(value)
}

/// The same of an act by its kind, once what it has of its own is drawn.
#[cycle(walk)]
fn draw_inside(
    alloc: Global,
    netlist: &mut Netlist,
    walk: &Walk<'_>,
    variables: &[Variable],
    site: u32,
    kind: &CoreKind,
    drawn: &mut Drawn,
) -> Result<Signal, AllocError>
    requires { (scope : List Act) ×
        InsidePlan netlist.old walk.now drawn.old variables.now scope (act_at walk.now scope site kind.now) }
    ensures { IfOk result (λ value. (scope : List Act) →
        InsidePlan netlist.old walk.now drawn.old variables.now scope (act_at walk.now scope site kind.now) →
        InsideDrawn netlist.old netlist.new walk.now drawn.old drawn.new scope (act_at walk.now scope site kind.now)
        value) }
{
    match kind {
        CoreKind::If { yes, no, word, .. } => match no {
            None => {
                let value = draw_when(alloc, netlist, walk, variables, site, yes, drawn)?;
                Ok(value)
            }
            Some(other) => {
                let worded = word.is_some();
                let value = draw_if(
                    alloc, netlist, walk, variables, site, yes, other, worded, drawn,
                )?;
                Ok(value)
            }
        },
        CoreKind::Block(inner) => {
            let value = draw_term(alloc, netlist, walk, variables, inner, drawn)?;
            Ok(value)
        }
        CoreKind::Recv { port } => Ok(data_of(walk, *port)),
        CoreKind::Wait { var } => Ok(value_of(walk, variables, *var)),
        CoreKind::Pure(value) => {
            let value = draw_pure(netlist, walk, variables, value)?;
            Ok(value)
        }
        CoreKind::Cycle(_) | CoreKind::Set { .. } | CoreKind::Send { .. } | CoreKind::Unit => {
            Ok(Signal::none())
        }
    }
}

/// The same of an `if` with both sides, which may have a value.
#[cycle(walk)]
fn draw_if(
    alloc: Global,
    netlist: &mut Netlist,
    walk: &Walk<'_>,
    variables: &[Variable],
    site: u32,
    yes: &CoreTerm,
    no: &CoreTerm,
    worded: bool,
    drawn: &mut Drawn,
) -> Result<Signal, AllocError>
    requires { (scope : List Act) × (asked : Expr) × InsidePlan netlist.old walk.now drawn.old variables.now scope
        (If site asked (term_at walk.now scope yes.now) (term_at walk.now scope no.now) worded) }
    ensures { IfOk result (λ value. (scope : List Act) (asked : Expr) →
        InsidePlan netlist.old walk.now drawn.old variables.now scope
        (If site asked (term_at walk.now scope yes.now) (term_at walk.now scope no.now) worded) →
        InsideDrawn netlist.old netlist.new walk.now drawn.old drawn.new scope
        (If site asked (term_at walk.now scope yes.now) (term_at walk.now scope no.now) worded) value) }
{
    let first = draw_term(alloc, netlist, walk, variables, yes, drawn)?;
    let second = draw_term(alloc, netlist, walk, variables, no, drawn)?;
    if worded {
        let side = bit_of(&drawn.sides, site as usize);
        let value = netlist.choose(&side, &first, &second)?;
        Ok(value)
    } else {
        Ok(Signal::none())
    }
}

/// The same of an `if` without an else, which has no value.
#[cycle(walk)]
fn draw_when(
    alloc: Global,
    netlist: &mut Netlist,
    walk: &Walk<'_>,
    variables: &[Variable],
    site: u32,
    yes: &CoreTerm,
    drawn: &mut Drawn,
) -> Result<Signal, AllocError>
    requires { (scope : List Act) × (asked : Expr) × InsidePlan netlist.old walk.now drawn.old variables.now scope
        (When site asked (term_at walk.now scope yes.now)) }
    ensures { IfOk result (λ value. (scope : List Act) (asked : Expr) →
        InsidePlan netlist.old walk.now drawn.old variables.now scope
        (When site asked (term_at walk.now scope yes.now)) →
        InsideDrawn netlist.old netlist.new walk.now drawn.old drawn.new scope
        (When site asked (term_at walk.now scope yes.now)) value) }
{
    let _first = draw_term(alloc, netlist, walk, variables, yes, drawn)?;
    Ok(Signal::none())
}
