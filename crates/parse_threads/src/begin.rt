//! Where the terms and acts of a thread begin, and what follows them.
ghost use Rattle.std.specs.Prelude.{◌≡◌, ◌∷◌, List, false, MatchOption};
ghost use Rattle.anvil_tree.specs.View.{expr_of, term_of};
ghost use Rattle.anvil_grammar.specs.State as states;
ghost use Rattle.anvil_grammar.specs.Step.{begin_step, begin_step_by, else_step, operand_step, quietly, term_step, thread_step_at};
ghost use Rattle.parse_expressions.specs.Seen.{nodes_of};
ghost use Rattle.parse_steps.specs.Seen.{begin_of, begun_of};
ghost use Rattle.thread_frames.specs.SeenFrames.{stack_of};
ghost use Rattle.parse_threads.specs.SeenThread.{IsNext, acted, begins_by_key, seen_at, term_state_of};

use crate::act::act_step;
use crate::thread::{
    MarkWanted, NameWanted, Next, NextStep, TermState, ThreadState, ValueFrame, awaits_value, waits,
};
use anvil_grammar::Counted;
use anvil_lexer::{Keyword, Mark, Token, TokenKind};
use anvil_tree::{Expr, Term};
use parse_expressions::{Expression, Read, is_mark, refuse, refused};
use parse_steps::{Begin, Begun, is_key};
use std::alloc::Global;
use thread_frames::{Frame, Stack, TermFrame, when};

// How an act begins with the token, where that is the keyword of one.
fn opening_at(alloc: Global, token: &Token) -> Option<ThreadState>
    ensures { MatchOption result
        (begins_by_key token.now.kind ≡ false)
        (λ state. (stack : List states.Frame)
        → begin_step_by stack token.now token.now.kind ≡ quietly (seen_at stack state)) }
{
    let at = token.at;
    match &token.kind {
        TokenKind::Key(Keyword::Cycle) => Some(ThreadState::CycleCount { at }),
        TokenKind::Key(Keyword::Set) => Some(ThreadState::Name(NameWanted::Register { at })),
        TokenKind::Key(Keyword::Send) => Some(ThreadState::Name(NameWanted::SendEndpoint { at })),
        TokenKind::Key(Keyword::Recv) => Some(ThreadState::Name(NameWanted::ReceiveEndpoint {
            at,
        })),
        TokenKind::Key(Keyword::If) => Some(awaits_value(alloc, ValueFrame::Deciding { at })),
        _ => None,
    }
}

// The act that begins at a token, with the node that begins there, where one does.
fn begun_after(act: Begin, node: Option<u32>) -> Begun
    ensures { begun_of result ≡ begin_of act ∷ nodes_of node }
{
    match node {
        Some(at) => {
            let kind = Counted::Expr;
            Begun::Two(act, Begin { kind, at })
        }
        None => Begun::One(act),
    }
}

// An act that is an expression begins with the token.
fn evaluates(alloc: Global, act: Begin, token: &Token) -> NextStep
    ensures { (stack : List states.Frame)
        → IsNext stack token.now
        (acted (begin_of act) (operand_step (states.evaluating ∷ stack) token.now token.now.kind)) result }
{
    let mut expression = Expression::new(alloc);
    match expression.step(alloc, token) {
        Ok(Read::Onward(node)) => {
            let state = ThreadState::Value(ValueFrame::Evaluating, expression);
            Ok(Next::Onward(begun_after(act, node), state))
        }
        Ok(Read::Whole(expr)) => refuse((expr, expression), token),
        Err(refusal) => refused(expression, refusal),
    }
}

// An act begins with the token.
fn begin_step(alloc: Global, stack: &mut Stack, token: &Token) -> NextStep
    ensures { IsNext (stack_of stack.new) token.now
        (begin_step (stack_of stack.old) token.now token.now.kind) result }
{
    let at = token.at;
    let act = Begin {
        kind: Counted::Act,
        at,
    };
    match opening_at(alloc, token) {
        Some(state) => Ok(Next::Onward(Begun::One(act), state)),
        None if is_mark(token, Mark::OpenBrace) => {
            let frame = Frame::Term(TermFrame::Blocking { at });
            waits(stack, Begun::One(act), frame, TermState::Wanted)
        }
        None => evaluates(alloc, act, token),
    }
}

// A term begins.
fn term_step(alloc: Global, stack: &mut Stack, token: &Token) -> NextStep
    ensures { IsNext (stack_of stack.new) token.now
        (term_step (stack_of stack.old) token.now token.now.kind) result }
{
    if is_key(token, Keyword::Let) {
        let state = ThreadState::Name(NameWanted::Variable);
        return Ok(Next::Onward(Begun::Nothing, state));
    }
    begin_step(alloc, stack, token)
}

// The first side of an `if` is whole.
fn else_step(
    alloc: Global,
    stack: &mut Stack,
    at: u32,
    condition: Expr,
    first: Term,
    token: &Token,
) -> NextStep
    ensures { IsNext (stack_of stack.new) token.now
        (else_step (stack_of stack.old) at (expr_of condition) (term_of first) token.now.kind) result }
{
    match &token.kind {
        TokenKind::Key(Keyword::Else) => {
            let wanted = MarkWanted::ElseOpening {
                at,
                condition,
                first,
            };
            Ok(Next::Onward(Begun::Nothing, ThreadState::Mark(wanted)))
        }
        _ => match when(alloc, at, condition, first) {
            Ok(act) => act_step(alloc, stack, act, token),
            Err(refusal) => Err(refusal),
        },
    }
}

/// Reads on in a term.
pub fn in_term_step(alloc: Global, stack: &mut Stack, state: TermState, token: &Token) -> NextStep
    ensures { IsNext (stack_of stack.new) token.now
        (thread_step_at (stack_of stack.old) (term_state_of state) token.now) result }
{
    match state {
        TermState::Wanted => term_step(alloc, stack, token),
        TermState::ActWanted => begin_step(alloc, stack, token),
        TermState::AfterAct(act) => act_step(alloc, stack, act, token),
        TermState::AfterFirst {
            at,
            condition,
            first,
        } => else_step(alloc, stack, at, condition, first, token),
    }
}
