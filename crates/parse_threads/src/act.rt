//! Reads the acts and terms of a thread token by token.
ghost use Rattle.std.specs.Prelude.{◌≡◌, ◌≢◌, ◌∷◌, List, MatchResult};
ghost use Rattle.anvil_grammar.specs.State as states;
ghost use Rattle.anvil_tree.specs.View.{act_of, expr_of, term_of};
ghost use Rattle.anvil_grammar.specs.Step.{act_step, expression_step, moves, term_ends, thread_step};
ghost use Rattle.parse_expressions.specs.Seen.{nodes_of};
ghost use Rattle.parse_steps.specs.Seen.{begun_of};
ghost use Rattle.thread_frames.specs.SeenFrames.{link_frame_of, stack_of, term_frame_of};
ghost use Rattle.parse_threads.specs.SeenThread.{IsNext, joined_step, next_of, seen_at, value_frame_of};

use crate::thread::{Next, NextStep, TermState, ThreadState, ValueFrame, waits};
use anvil_grammar::{Counted, ParseErr};
use anvil_lexer::{Mark, Name, Token, TokenKind};
use anvil_tree::{Act, ActKind, Expr, Term};
use parse_expressions::{Expression, Read, first_of, is_mark, refuse, refused};
use parse_steps::{Begin, Begun};
use std::alloc::Global;
use thread_frames::{Frame, Joint, Link, Stack, TermFrame, block, either, linked, send, set};

// A term is whole, and what waits for it goes on.
#[tactic(auto, using(crate::proofs::Joining::link_ends))]
fn term_ends(alloc: Global, stack: &mut Stack, term: Term, token: &Token) -> NextStep
    ensures { IsNext (stack_of stack.new) token.now (term_ends (stack_of stack.old) (term_of term)) result }
{
    let mut term = term;
    while let Some(frame) = stack.pop() {
        match frame {
            Frame::Link(link) => match linked(alloc, link, term) {
                Ok(whole) => term = whole,
                Err(refusal) => return Err(refusal),
            },
            Frame::Term(part) => return part_ends(alloc, part, term),
            Frame::Binding(name) => return refuse((name, term), token),
        }
    }
    Ok(Next::Whole(term))
}

// The term that a part of an act waits for is whole.
fn part_ends(alloc: Global, part: TermFrame, term: Term) -> NextStep
    ensures { MatchResult result
        (λ next. (stack : List states.Frame)
        → next_of stack next ≡ term_ends (term_frame_of part ∷ stack) (term_of term))
        (λ refusal. refusal ≡ ParseErr.NoMemory) }
{
    let act = match part {
        TermFrame::FirstSide { at, condition } => {
            let state = TermState::AfterFirst {
                at,
                condition,
                first: term,
            };
            return Ok(Next::Onward(Begun::Nothing, ThreadState::Term(state)));
        }
        TermFrame::SecondSide {
            at,
            condition,
            first,
        } => either(alloc, at, condition, first, term),
        TermFrame::Blocking { at } => block(alloc, at, term),
    };
    match act {
        Ok(act) => Ok(after(act)),
        Err(refusal) => Err(refusal),
    }
}

// An act is whole, and a token is to follow it.
fn after(act: Act) -> Next
    ensures { (stack : List states.Frame) → next_of stack result ≡ moves stack (states.after_act (act_of act)) }
{
    Next::Onward(Begun::Nothing, ThreadState::Term(TermState::AfterAct(act)))
}

/// An act is whole, and the token follows it.
pub fn act_step(alloc: Global, stack: &mut Stack, act: Act, token: &Token) -> NextStep
    ensures { IsNext (stack_of stack.new) token.now
        (act_step (stack_of stack.old) (act_of act) token.now.kind) result }
{
    let bound = stack.pop_bound();
    joined_step(alloc, stack, bound, act, token)
}

// An act is whole, with the variable that its value is bound to.
fn joined_step(
    alloc: Global,
    stack: &mut Stack,
    bound: Option<Name>,
    act: Act,
    token: &Token,
) -> NextStep
    ensures { IsNext (stack_of stack.new) token.now
        (joined_step bound (stack_of stack.old) (act_of act) token.now.kind) result }
{
    match &token.kind {
        TokenKind::Mark(Mark::Chain) => awaits_term(
            stack,
            Link {
                joint: Joint::Follow,
                bound,
                act,
            },
        ),
        TokenKind::Mark(Mark::Semicolon) => awaits_term(
            stack,
            Link {
                joint: Joint::Beside,
                bound,
                act,
            },
        ),
        TokenKind::Mark(Mark::CloseBrace) => match bound {
            None => term_ends(alloc, stack, Term::One(act), token),
            Some(name) => refuse((name, act), token),
        },
        _ => refuse((bound, act), token),
    }
}

// An act waits for the term behind it.
fn awaits_term(stack: &mut Stack, link: Link) -> NextStep
    ensures { MatchResult result
        (λ next. next_of (stack_of stack.new) next ≡ moves (link_frame_of link ∷ stack_of stack.old) states.term_wanted)
        (λ refusal. refusal ≡ ParseErr.NoMemory) }
{
    waits(stack, Begun::Nothing, Frame::Link(link), TermState::Wanted)
}

// The node that begins, where one does.
fn node_at(node: Option<u32>) -> Begun
    ensures { begun_of result ≡ nodes_of node }
{
    match node {
        Some(at) => {
            let kind = Counted::Expr;
            Begun::One(Begin { kind, at })
        }
        None => Begun::Nothing,
    }
}

/// Reads on in the expression that an act waits for.
pub fn value_step(
    alloc: Global,
    stack: &mut Stack,
    act: ValueFrame,
    expression: Expression,
    token: &Token,
) -> NextStep
    ensures { IsNext (stack_of stack.new) token.now
        (thread_step (seen_at (stack_of stack.old) (ThreadState.Value act expression)) token.now) result }
{
    let mut expression = expression;
    match expression.step(alloc, token) {
        Ok(Read::Onward(node)) => {
            let state = ThreadState::Value(act, expression);
            Ok(Next::Onward(node_at(node), state))
        }
        Ok(Read::Whole(expr)) => {
            let expr = first_of(expr, expression);
            value_ends(alloc, stack, act, expr, token)
        }
        Err(refusal) => refused((act, expression), refusal),
    }
}

// The expression of an act is whole, and the token follows it.
fn value_ends(
    alloc: Global,
    stack: &mut Stack,
    act: ValueFrame,
    expr: Expr,
    token: &Token,
) -> NextStep
    ensures { IsNext (stack_of stack.new) token.now
        (expression_step (value_frame_of act ∷ stack_of stack.old) (expr_of expr) token.now.kind) result }
{
    match act {
        ValueFrame::Setting { at, register } => {
            act_step(alloc, stack, set(at, register, expr), token)
        }
        ValueFrame::Sending {
            at,
            endpoint,
            message,
        } => closes(send(at, endpoint, message, expr), token),
        ValueFrame::Deciding { at } => decides(stack, at, expr, token),
        ValueFrame::Evaluating => {
            let act = Act {
                at: expr.at,
                kind: ActKind::Pure(expr),
            };
            act_step(alloc, stack, act, token)
        }
    }
}

// `)` closes an act.
fn closes(act: Act, token: &Token) -> NextStep
    ensures { MatchResult result
        (λ next. (token.now.kind ≡ TokenKind.Mark Mark.CloseParen)
        × ((stack : List states.Frame) → next_of stack next ≡ moves stack (states.after_act (act_of act))))
        (λ refusal. (token.now.kind ≢ TokenKind.Mark Mark.CloseParen) × (refusal ≡ ParseErr.Unexpected token.now.at)) }
{
    if is_mark(token, Mark::CloseParen) {
        Ok(after(act))
    } else {
        refuse(act, token)
    }
}

// The condition of an `if` is whole.
fn decides(stack: &mut Stack, at: u32, condition: Expr, token: &Token) -> NextStep
    ensures { IsNext (stack_of stack.new) token.now
        (expression_step (states.deciding at ∷ stack_of stack.old) (expr_of condition) token.now.kind) result }
{
    if is_mark(token, Mark::OpenBrace) {
        let frame = Frame::Term(TermFrame::FirstSide { at, condition });
        waits(stack, Begun::Nothing, frame, TermState::Wanted)
    } else {
        refuse(condition, token)
    }
}
