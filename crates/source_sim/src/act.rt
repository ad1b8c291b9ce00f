//! What becomes of one act in a cycle: it begins, goes on or ends.
ghost use Rattle.std.specs.Prelude.{◌≡◌, ◌<◌, length};
ghost use Rattle.sim_laws.specs.Advance.{does_of, count_of, taken_by, begin_state, go_on_state, visit as visited, timed as timed_to, talked as talked_to, waited_for, end_state, close_with, unit_of as as_unit};
ghost use Rattle.source_sim.specs.NowSeen.{act_now, ActFits, IsSeen, made_alone};

use crate::coming::{ack, data, valid};
use crate::evaluate::evaluate;
use crate::now::Now;
use anvil_bits::Bits;
use core_term::{CoreAct, CoreKind};
use sim_laws::{ActState, Does};

/// What an act does to wires and registers.
fn does(act: &CoreAct, now: &Now) -> Does
    ensures { result ≡ does_of (act_now now.now act.now) }
{
    match &act.kind {
        CoreKind::Set { reg, .. } => Does::Sets(*reg),
        CoreKind::Send { port, .. } => Does::Sends(*port),
        CoreKind::Recv { port } => Does::Receives(*port),
        _ => Does::Nothing,
    }
}

/// How many cycles an act takes, where its text says so.
fn count(act: &CoreAct, now: &Now) -> u16
    ensures { result ≡ count_of (act_now now.now act.now) }
{
    match &act.kind {
        CoreKind::Cycle(count) => *count,
        CoreKind::Set { .. } => 1,
        _ => 0,
    }
}

/// What an act takes as it begins.
fn taken(act: &CoreAct, now: &Now, acts: &[ActState], old: Bits) -> Bits
    requires fits { ActFits now.now (act_now now.now act.now) }
    requires seen { IsSeen now.now acts.now }
    ensures { result ≡ taken_by now.now.registers.now acts.now (act_now now.now act.now) old }
{
    match &act.kind {
        CoreKind::Set { value, .. } => evaluate(value, now, acts),
        CoreKind::Send { value, .. } => evaluate(value, now, acts),
        CoreKind::Pure(value) => evaluate(value, now, acts),
        CoreKind::If { cond, .. } => evaluate(cond, now, acts),
        _ => old,
    }
}

/// An act begins.
fn begin(act: &CoreAct, now: &Now, acts: &[ActState], old: ActState) -> ActState
    requires fits { ActFits now.now (act_now now.now act.now) }
    requires seen { IsSeen now.now acts.now }
    ensures { result ≡ begin_state now.now.registers.now acts.now (act_now now.now act.now) old }
{
    ActState {
        does: does(act, now),
        begun: true,
        fresh: true,
        ended: false,
        over: false,
        left: count(act, now),
        taken: taken(act, now, acts, old.taken),
        made: Bits::new(old.made.width(), 0),
    }
}

/// An act that has begun goes on.
fn go_on(old: ActState) -> ActState
    ensures { result ≡ go_on_state old }
{
    ActState {
        does: old.does,
        begun: old.begun,
        fresh: false,
        ended: old.ended,
        over: old.ended,
        left: old.left.saturating_sub(1),
        taken: old.taken,
        made: old.made,
    }
}

/// An act is reached.
pub fn visit(act: &CoreAct, now: &Now, acts: &mut [ActState])
    requires fits { ActFits now.now (act_now now.now act.now) }
    requires seen { IsSeen now.now acts.old }
    ensures { acts.new ≡ visited now.now.registers.now (act_now now.now act.now) acts.old }
{
    let site = act.site as usize;
    let old = acts[site];
    if old.begun {
        acts[site] = go_on(old);
    } else {
        acts[site] = begin(act, now, acts, old);
    }
}

/// An act whose text says how many cycles it takes.
fn timed(state: &ActState) -> Option<Bits>
    ensures { result ≡ timed_to state.now }
{
    if state.left == 0 {
        Some(state.made)
    } else {
        None
    }
}

/// An act that ends where a test holds, with a value.
fn talked(state: &ActState, on: bool, value: Bits) -> Option<Bits>
    ensures { result ≡ talked_to state.now on value }
{
    if state.ended {
        Some(state.made)
    } else if on {
        Some(value)
    } else {
        None
    }
}

/// A wait for an act.
fn waited(state: &ActState) -> Option<Bits>
    ensures { result ≡ waited_for state.now }
{
    if state.ended { Some(state.made) } else { None }
}

/// An act ends.
fn end(old: ActState, value: Bits) -> ActState
    ensures { result ≡ end_state old value }
{
    ActState {
        does: old.does,
        begun: old.begun,
        fresh: old.fresh,
        ended: true,
        over: old.over,
        left: old.left,
        taken: old.taken,
        made: value,
    }
}

/// An act has ended where it has made its value.
pub fn close(site: usize, made: Option<Bits>, acts: &mut [ActState]) -> Option<Bits>
    requires { site < length acts.old }
    ensures { close_with site made acts.old ≡ record { made = result; acts = acts.new } }
{
    match made {
        None => None,
        Some(value) => {
            let old = acts[site];
            acts[site] = end(old, value);
            Some(value)
        }
    }
}

/// An act that is unit has made a zero where its part has ended.
pub fn unit(made: Option<Bits>, zero: Bits) -> Option<Bits>
    ensures { result ≡ as_unit made zero }
{
    match made {
        None => None,
        Some(_) => Some(zero),
    }
}

/// What an act of no parts has made by now, once it was reached.
pub fn alone(act: &CoreAct, now: &Now, acts: &[ActState]) -> Option<Bits>
    requires fits { ActFits now.now (act_now now.now act.now) }
    requires seen { IsSeen now.now acts.now }
    ensures { result ≡ made_alone now.now.cells.now (act_now now.now act.now) acts.now }
{
    let state = &acts[act.site as usize];
    match &act.kind {
        CoreKind::Cycle(_) => timed(state),
        CoreKind::Set { .. } => timed(state),
        CoreKind::Send { port, .. } => talked(state, ack(now, *port), state.made),
        CoreKind::Recv { port } => talked(state, valid(now, *port), data(now, *port)),
        CoreKind::Wait { var } => waited(&acts[*var as usize]),
        CoreKind::Pure(_) => talked(state, state.fresh, state.taken),
        CoreKind::Unit => Some(state.made),
        _ => None,
    }
}
