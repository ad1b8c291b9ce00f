//! The walk over a term in tree order, which adds the nodes of its points to a graph.
//!
//! A point of the form Same gets no node: it shares that of its predecessor. The begins and ends of acts are written into a table by
//! site, where a wait finds the end of the act that it waits for.
//!
//! Each function needs a plan, a record of what the part of the body needs, and gives what was drawn by it (`specs/Walk`).
ghost use Rattle.std.specs.Prelude.{◌≡◌, ◌<◌, ◌≤◌, ◌+◌, ◌++◌, ◌∷◌, [], length, IfOk, Bool};
ghost use Rattle.event_graph.specs.Event.{ArePreds};
ghost use Rattle.core_term.specs.Term.{Expr, If, When};
ghost use Rattle.core_term.specs.Widths.{Widths};
ghost use Rattle.core_term.specs.View.{term_of, act_of};
ghost use Rattle.event_points.specs.Placed.{arm};
ghost use Rattle.elaborator.specs.Walk.{Plan, ActPlan, Drawn, ActDrawn, then_of, both_of};

use crate::Points;
use core_term::{CoreAct, CoreKind, CoreTerm};
use event_graph::{Arm, Builder, EvId, GraphErr, Kind};
use std::alloc::AllocError;

/// Adds a node where there is room for it. So the builder never has too many.
pub fn add_node<'a>(
    kind: Kind,
    preds: &[EvId],
    arms: &'a [Arm],
    builder: &mut Builder<'a>,
) -> Result<EvId, AllocError>
    requires room { length builder.old < 8192 }
    requires preds { ArePreds kind (length builder.old) preds.now }
    ensures { IfOk result (λ node. (node ≡ length builder.old) × (builder.new ≡ builder.old ++ record { kind = kind; preds = preds.now; arms = arms.now } ∷ [])) }
{
    match builder.add(kind, preds, arms) {
        Ok(node) => Ok(node),
        Err(GraphErr::NoMemory) => Err(AllocError),
        Err(GraphErr::TooMany) => unreachable!(),
    }
}

/// Adds the nodes of the points of a term that begins at a node, writes the points of its acts, and answers the node of its end.
#[cycle(walk)]
pub fn add_term<'a>(
    turn: u8,
    term: &CoreTerm,
    begin: EvId,
    arms: &'a [Arm],
    builder: &mut Builder<'a>,
    points: &mut [Points],
) -> Result<EvId, AllocError>
    requires { (widths : Widths) × Plan turn (length builder.old) begin arms.now points.old (term_of widths term.now) }
    ensures { IfOk result (λ end. (widths : Widths) (plan : Plan turn (length builder.old) begin arms.now points.old (term_of widths term.now)) → Drawn plan builder.old builder.new points.new end) }
{
    match term {
        CoreTerm::One(act) => {
            let end = add_act(turn, act, begin, arms, builder, points)?;
            Ok(end)
        }
        CoreTerm::Then(act, rest) => {
            let end = add_then(turn, act, rest, begin, arms, builder, points)?;
            Ok(end)
        }
        CoreTerm::Both(act, rest) => {
            let end = add_both(turn, act, rest, begin, arms, builder, points)?;
            Ok(end)
        }
    }
}

/// The same of an act and a rest that begins where the act ends.
#[cycle(walk)]
fn add_then<'a>(
    turn: u8,
    act: &CoreAct,
    rest: &CoreTerm,
    begin: EvId,
    arms: &'a [Arm],
    builder: &mut Builder<'a>,
    points: &mut [Points],
) -> Result<EvId, AllocError>
    requires { (w : Widths) × Plan turn (length builder.old) begin arms.now points.old (then_of w act.now rest.now) }
    ensures { IfOk result (λ end. (w : Widths) (plan : Plan turn (length builder.old) begin arms.now points.old (then_of w act.now rest.now)) → Drawn plan builder.old builder.new points.new end) }
{
    let made = add_act(turn, act, begin, arms, builder, points)?;
    let end = add_term(turn, rest, made, arms, builder, points)?;
    Ok(end)
}

/// The same of an act and a rest that begins with it: the end is the later of both ends.
#[cycle(walk)]
fn add_both<'a>(
    turn: u8,
    act: &CoreAct,
    rest: &CoreTerm,
    begin: EvId,
    arms: &'a [Arm],
    builder: &mut Builder<'a>,
    points: &mut [Points],
) -> Result<EvId, AllocError>
    requires { (w : Widths) × Plan turn (length builder.old) begin arms.now points.old (both_of w act.now rest.now) }
    ensures { IfOk result (λ end. (w : Widths) (plan : Plan turn (length builder.old) begin arms.now points.old (both_of w act.now rest.now)) → Drawn plan builder.old builder.new points.new end) }
{
    let made = add_act(turn, act, begin, arms, builder, points)?;
    let last = add_term(turn, rest, begin, arms, builder, points)?;
    let end = add_node(Kind::Join, &[made, last], arms, builder)?;
    Ok(end)
}

/// The same of an act, whose begin and end it writes into the table.
#[cycle(walk)]
fn add_act<'a>(
    turn: u8,
    act: &CoreAct,
    begin: EvId,
    arms: &'a [Arm],
    builder: &mut Builder<'a>,
    points: &mut [Points],
) -> Result<EvId, AllocError>
    requires { (widths : Widths) × ActPlan turn (length builder.old) begin arms.now points.old (act_of widths act.now.site act.now.kind) }
    ensures { IfOk result (λ end. (widths : Widths) (plan : ActPlan turn (length builder.old) begin arms.now points.old (act_of widths act.now.site act.now.kind)) → ActDrawn plan plan.low builder.old builder.new points.new end) }
{
    let end = add_kind(turn, act.site, &act.kind, begin, arms, builder, points)?;
    points[act.site as usize] = Points { begin, end };
    Ok(end)
}

/// The same of an act by its kind, without its own points, which are written once its end is known.
#[cycle(walk)]
fn add_kind<'a>(
    turn: u8,
    site: u32,
    kind: &CoreKind,
    begin: EvId,
    arms: &'a [Arm],
    builder: &mut Builder<'a>,
    points: &mut [Points],
) -> Result<EvId, AllocError>
    requires { (widths : Widths) × ActPlan turn (length builder.old) begin arms.now points.old (act_of widths site kind.now) }
    ensures { IfOk result (λ end. (widths : Widths) (plan : ActPlan turn (length builder.old) begin arms.now points.old (act_of widths site kind.now)) → ActDrawn plan (plan.low + 1) builder.old builder.new points.new end) }
{
    match kind {
        CoreKind::Cycle(count) => add_node(Kind::After(u32::from(*count)), &[begin], arms, builder),
        CoreKind::Set { .. } => add_node(Kind::After(1), &[begin], arms, builder),
        CoreKind::Send { .. } | CoreKind::Recv { .. } => add_node(
            Kind::Sync,
            &[begin],
            arms,
            builder,
        ),
        CoreKind::If { yes, no, .. } => match no {
            None => {
                let end = add_when(turn, site, yes, begin, arms, builder, points)?;
                Ok(end)
            }
            Some(other) => {
                let end = add_if(turn, site, yes, other, begin, arms, builder, points)?;
                Ok(end)
            }
        },
        CoreKind::Block(inner) => {
            let end = add_term(turn, inner, begin, arms, builder, points)?;
            Ok(end)
        }
        CoreKind::Wait { var } => {
            let made = points[*var as usize].end;
            let join = add_node(Kind::Join, &[begin, made], arms, builder)?;
            Ok(join)
        }
        CoreKind::Pure(_) | CoreKind::Unit => Ok(begin),
    }
}

/// The same of an `if` with both sides: each is begun by a node, and a node ends the `if` with the side that comes.
#[cycle(walk)]
fn add_if<'a>(
    turn: u8,
    site: u32,
    yes: &CoreTerm,
    no: &CoreTerm,
    begin: EvId,
    arms: &'a [Arm],
    builder: &mut Builder<'a>,
    points: &mut [Points],
) -> Result<EvId, AllocError>
    requires { (widths : Widths) × (e : Expr) × (w : Bool) × ActPlan turn (length builder.old) begin arms.now points.old (If site e (term_of widths yes.now) (term_of widths no.now) w) }
    ensures { IfOk result (λ end. (widths : Widths) (e : Expr) (w : Bool) (plan : ActPlan turn (length builder.old) begin arms.now points.old (If site e (term_of widths yes.now) (term_of widths no.now) w)) → ActDrawn plan (plan.low + 1) builder.old builder.new points.new end) }
{
    let (first, taken) = add_side(turn, site, true, begin, arms, builder)?;
    let first_end = add_term(turn, yes, first, taken, builder, points)?;
    let (second, others) = add_side(turn, site, false, begin, arms, builder)?;
    let second_end = add_term(turn, no, second, others, builder, points)?;
    let end = add_node(Kind::Merge, &[first_end, second_end], arms, builder)?;
    Ok(end)
}

/// The same of an `if` without an else, whose missing side is its begin alone.
#[cycle(walk)]
fn add_when<'a>(
    turn: u8,
    site: u32,
    yes: &CoreTerm,
    begin: EvId,
    arms: &'a [Arm],
    builder: &mut Builder<'a>,
    points: &mut [Points],
) -> Result<EvId, AllocError>
    requires { (widths : Widths) × (e : Expr) × ActPlan turn (length builder.old) begin arms.now points.old (When site e (term_of widths yes.now)) }
    ensures { IfOk result (λ end. (widths : Widths) (e : Expr) (plan : ActPlan turn (length builder.old) begin arms.now points.old (When site e (term_of widths yes.now))) → ActDrawn plan (plan.low + 1) builder.old builder.new points.new end) }
{
    let (first, taken) = add_side(turn, site, true, begin, arms, builder)?;
    let first_end = add_term(turn, yes, first, taken, builder, points)?;
    let (second, _) = add_side(turn, site, false, begin, arms, builder)?;
    let end = add_node(Kind::Merge, &[first_end, second], arms, builder)?;
    Ok(end)
}

/// Adds the first point of a side of an `if`, and answers its node and the arms of the points inside.
fn add_side<'a>(
    turn: u8,
    site: u32,
    yes: bool,
    begin: EvId,
    arms: &[Arm],
    builder: &mut Builder<'a>,
) -> Result<(EvId, &'a [Arm]), AllocError>
    requires room { length builder.old < 8192 }
    requires begin { begin < length builder.old }
    ensures { IfOk result (λ r. (r.0 ≡ length builder.old) × (r.1.now ≡ arms.now ++ arm turn site yes ∷ []) × (builder.new ≡ builder.old ++ record { kind = Kind.Side; preds = begin ∷ []; arms = arms.now ++ arm turn site yes ∷ [] } ∷ [])) }
{
    let inside = builder.arm(arms, Arm { turn, site, yes })?;
    let node = add_node(Kind::Side, &[begin], inside, builder)?;
    Ok((node, inside))
}
