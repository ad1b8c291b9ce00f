//! Reads on inside an act, from behind its keyword to its expression or its end.
ghost use Rattle.std.specs.Prelude.{◌≡◌, List, MatchResult};
ghost use Rattle.anvil_grammar.specs.State as states;
ghost use Rattle.anvil_grammar.specs.Step.{quietly, thread_step_at};
ghost use Rattle.parse_steps.specs.Seen.{label_of};
ghost use Rattle.thread_frames.specs.SeenFrames.{stack_of};
ghost use Rattle.parse_threads.specs.SeenThread.{IsNext, mark_of, mark_state_of, marked, name_state_of, named, next_of, seen_at};

use crate::thread::{
    MarkWanted, NameWanted, Next, NextStep, TermState, ThreadState, ValueFrame, awaits_value, waits,
};
use anvil_grammar::ParseErr;
use anvil_lexer::{Mark, Token, TokenKind};
use anvil_tree::{Act, ActKind};
use parse_expressions::{is_mark, refuse, refused};
use parse_steps::{Begun, Label, word};
use std::alloc::Global;
use thread_frames::{Frame, Stack, TermFrame, receive};

/// The number of a `cycle`.
pub fn cycle_step(at: u32, token: &Token) -> NextStep
    ensures { (stack : List states.Frame)
        → IsNext stack token.now (thread_step_at stack (states.cycle_count at) token.now) result }
{
    match &token.kind {
        TokenKind::Number(count) => {
            let act = Act {
                at,
                kind: ActKind::Cycle {
                    count: *count,
                    count_at: token.at,
                },
            };
            Ok(Next::Onward(Begun::Nothing, ThreadState::Term(TermState::AfterAct(act))))
        }
        _ => Err(ParseErr::Unexpected { at: token.at }),
    }
}

// Where a name leads that was wanted.
fn named(wanted: NameWanted, label: Label) -> ThreadState
    ensures { (stack : List states.Frame) → quietly (seen_at stack result) ≡ named stack wanted (label_of label) }
{
    match wanted {
        NameWanted::Variable => ThreadState::Mark(MarkWanted::Equals(label.name)),
        NameWanted::Register { at } => {
            let register = label;
            ThreadState::Mark(MarkWanted::Assign { at, register })
        }
        NameWanted::SendEndpoint { at } => {
            let endpoint = label;
            ThreadState::Mark(MarkWanted::SendDot { at, endpoint })
        }
        NameWanted::SendMessage { at, endpoint } => {
            let message = label;
            ThreadState::Mark(MarkWanted::SendOpening {
                at,
                endpoint,
                message,
            })
        }
        NameWanted::ReceiveEndpoint { at } => {
            let endpoint = label;
            ThreadState::Mark(MarkWanted::ReceiveDot { at, endpoint })
        }
        NameWanted::ReceiveMessage { at, endpoint } => {
            ThreadState::Term(TermState::AfterAct(receive(at, endpoint, label)))
        }
    }
}

/// A name that is wanted.
pub fn name_step(wanted: NameWanted, token: &Token) -> NextStep
    ensures { (stack : List states.Frame)
        → IsNext stack token.now (thread_step_at stack (name_state_of wanted) token.now) result }
{
    match word(token) {
        Ok(label) => Ok(Next::Onward(Begun::Nothing, named(wanted, label))),
        Err(refusal) => refused(wanted, refusal),
    }
}

// The mark that is wanted.
fn mark_of(wanted: &MarkWanted) -> Mark
    ensures { result ≡ mark_of wanted.now }
{
    match wanted {
        MarkWanted::Equals(_) => Mark::Equals,
        MarkWanted::Assign { .. } => Mark::Assign,
        MarkWanted::SendDot { .. } | MarkWanted::ReceiveDot { .. } => Mark::Dot,
        MarkWanted::SendOpening { .. } => Mark::OpenParen,
        MarkWanted::ElseOpening { .. } => Mark::OpenBrace,
    }
}

// Where a mark leads that was wanted.
fn marked(alloc: Global, stack: &mut Stack, wanted: MarkWanted) -> NextStep
    ensures { MatchResult result
        (λ next. next_of (stack_of stack.new) next ≡ marked (stack_of stack.old) wanted)
        (λ refusal. refusal ≡ ParseErr.NoMemory) }
{
    let state = match wanted {
        MarkWanted::Equals(name) => {
            let frame = Frame::Binding(name);
            return waits(stack, Begun::Nothing, frame, TermState::ActWanted);
        }
        MarkWanted::ElseOpening {
            at,
            condition,
            first,
        } => {
            let frame = Frame::Term(TermFrame::SecondSide {
                at,
                condition,
                first,
            });
            return waits(stack, Begun::Nothing, frame, TermState::Wanted);
        }
        MarkWanted::Assign { at, register } => {
            awaits_value(alloc, ValueFrame::Setting { at, register })
        }
        MarkWanted::SendOpening {
            at,
            endpoint,
            message,
        } => awaits_value(
            alloc,
            ValueFrame::Sending {
                at,
                endpoint,
                message,
            },
        ),
        MarkWanted::SendDot { at, endpoint } => {
            ThreadState::Name(NameWanted::SendMessage { at, endpoint })
        }
        MarkWanted::ReceiveDot { at, endpoint } => {
            ThreadState::Name(NameWanted::ReceiveMessage { at, endpoint })
        }
    };
    Ok(Next::Onward(Begun::Nothing, state))
}

/// A mark that is wanted.
pub fn mark_step(alloc: Global, stack: &mut Stack, wanted: MarkWanted, token: &Token) -> NextStep
    ensures { IsNext (stack_of stack.new) token.now
        (thread_step_at (stack_of stack.old) (mark_state_of wanted) token.now) result }
{
    if is_mark(token, mark_of(&wanted)) {
        marked(alloc, stack, wanted)
    } else {
        refuse(wanted, token)
    }
}
