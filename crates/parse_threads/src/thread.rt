//! Where the reading of a thread stands, behind its `{`.
ghost use Rattle.std.specs.Prelude.{◌≡◌, ◌∷◌, [], List, MatchResult};
ghost use Rattle.anvil_grammar.specs.State as states;
ghost use Rattle.anvil_grammar.specs.Step.{at_state, onward, thread_step};
ghost use Rattle.anvil_tree.specs.View.{term_of};
ghost use Rattle.parse_steps.specs.Seen.{IsReached, begun_of};
ghost use Rattle.thread_frames.specs.SeenFrames.{frame_of, stack_of};
ghost use Rattle.parse_threads.specs.SeenThread.{IsNext, next_of, seen_at, term_state_of, thread_of, value_frame_of};

use crate::act::value_step;
use crate::begin::in_term_step;
use crate::inside::{cycle_step, mark_step, name_step};
use anvil_grammar::ParseErr;
use anvil_lexer::{Name, Token};
use anvil_tree::{Act, Expr, Term};
use parse_expressions::{Expression, put, refused};
use parse_steps::{Begun, Label, Reached};
use std::alloc::Global;
use std::mem;
use thread_frames::{Frame, Stack};

/// What is wanted next in a term.
#[derive(Drop)]
pub enum TermState {
    Wanted,
    ActWanted,
    AfterAct(Act),
    AfterFirst {
        at: u32,
        condition: Expr,
        first: Term,
    },
}

/// A name that is wanted next.
#[derive(Drop)]
pub enum NameWanted {
    Variable,
    Register { at: u32 },
    SendEndpoint { at: u32 },
    SendMessage { at: u32, endpoint: Label },
    ReceiveEndpoint { at: u32 },
    ReceiveMessage { at: u32, endpoint: Label },
}

/// A mark that is wanted next.
#[derive(Drop)]
pub enum MarkWanted {
    /// `=` behind the variable of a `let`.
    Equals(Name),
    /// `:=` behind the register of a `set`.
    Assign {
        at: u32,
        register: Label,
    },
    SendDot {
        at: u32,
        endpoint: Label,
    },
    /// `(` behind the message of a `send`.
    SendOpening {
        at: u32,
        endpoint: Label,
        message: Label,
    },
    ReceiveDot {
        at: u32,
        endpoint: Label,
    },
    /// `{` behind `else`.
    ElseOpening {
        at: u32,
        condition: Expr,
        first: Term,
    },
}

/// An act that waits for its expression.
#[derive(Drop)]
pub enum ValueFrame {
    /// `set` for its value.
    Setting {
        at: u32,
        register: Label,
    },
    /// `send` for its value.
    Sending {
        at: u32,
        endpoint: Label,
        message: Label,
    },
    /// `if` for its condition.
    Deciding {
        at: u32,
    },
    /// An act that is an expression.
    Evaluating,
}

/// What is wanted next in a thread.
#[derive(Drop)]
pub enum ThreadState {
    Term(TermState),
    /// The number of a `cycle`.
    CycleCount { at: u32 },
    Name(NameWanted),
    Mark(MarkWanted),
    /// The rest of the expression that an act waits for.
    Value(ValueFrame, Expression),
}

/// A thread that is being read.
pub struct Thread {
    pub stack: Stack,
    pub state: ThreadState,
}

/// As it would be derived. What holds a thread then calls this, and needs no proof for each type of a frame or state.
impl Drop for Thread {
    fn drop(self) {
        let Thread { stack, state } = self;
        mem::drop(stack);
        mem::drop(state);
    }
}

/// What a token comes to in a thread.
pub type ThreadStep = Result<Reached<Term>, ParseErr>;

/// Where a token leads in a thread.
#[derive(Drop)]
pub enum Next {
    /// The reading goes on at the state, with the things that begin.
    Onward(Begun, ThreadState),
    /// The term is whole.
    Whole(Term),
}

/// Where a token leads, or why it cannot stand there.
pub type NextStep = Result<Next, ParseErr>;

impl Thread {
    /// Behind the `{` of a thread.
    pub fn new(alloc: Global) -> Thread
        ensures { thread_of result ≡ at_state [] states.term_wanted }
    {
        Thread {
            stack: Stack::new(alloc),
            state: ThreadState::Term(TermState::Wanted),
        }
    }
}

/// A frame waits for a term or an act.
pub fn waits(stack: &mut Stack, begun: Begun, frame: Frame, state: TermState) -> NextStep
    ensures { MatchResult result
        (λ next. next_of (stack_of stack.new) next
        ≡ onward (begun_of begun) (at_state (frame_of frame ∷ stack_of stack.old) (term_state_of state)))
        (λ refusal. refusal ≡ ParseErr.NoMemory) }
{
    match stack.push(frame) {
        Ok(()) => Ok(Next::Onward(begun, ThreadState::Term(state))),
        Err(refusal) => refused(state, refusal),
    }
}

/// The expression is wanted that an act waits for.
pub fn awaits_value(alloc: Global, act: ValueFrame) -> ThreadState
    ensures { (stack : List states.Frame)
        → seen_at stack result ≡ at_state (value_frame_of act ∷ stack) states.operand_wanted }
{
    ThreadState::Value(act, Expression::new(alloc))
}

// Where the token leads at the state.
fn step_at(alloc: Global, stack: &mut Stack, state: ThreadState, token: &Token) -> NextStep
    ensures { IsNext (stack_of stack.new) token.now
        (thread_step (seen_at (stack_of stack.old) state) token.now) result }
{
    match state {
        ThreadState::Term(state) => in_term_step(alloc, stack, state, token),
        ThreadState::CycleCount { at } => cycle_step(at, token),
        ThreadState::Name(wanted) => name_step(wanted, token),
        ThreadState::Mark(wanted) => mark_step(alloc, stack, wanted, token),
        ThreadState::Value(act, expression) => value_step(alloc, stack, act, expression, token),
    }
}

/// Reads on in a thread.
pub fn thread_step(alloc: Global, thread: &mut Thread, token: &Token) -> ThreadStep
    ensures { IsReached (thread_of thread.new) term_of token.now (thread_step (thread_of thread.old) token.now) result }
{
    let state = mem::replace(&mut thread.state, ThreadState::Term(TermState::Wanted));
    match step_at(alloc, &mut thread.stack, state, token) {
        Ok(Next::Onward(begun, state)) => {
            put(&mut thread.state, state);
            Ok(Reached::Onward(begun))
        }
        Ok(Next::Whole(term)) => Ok(Reached::Finished(term)),
        Err(refusal) => Err(refusal),
    }
}
