//! The parts of a thread that wait while one of their own parts is read, the innermost on top.
ghost use Rattle.std.specs.Prelude.{◌≡◌, ◌∷◌, [], List, IfErr, None, OnOk, MatchOption};
ghost use Rattle.anvil_grammar.specs.State as states;
ghost use Rattle.thread_frames.specs.SeenFrames.{bound_of, frame_of, stack_of, unbound};

use anvil_grammar::ParseErr;
use anvil_lexer::Name;
use anvil_tree::{Act, Expr, Term};
use parse_expressions::push;
use std::alloc::Global;

/// What stands between an act and the term behind it.
#[derive(Clone, Copy)]
pub enum Joint {
    /// `>>`
    Follow,
    /// `;`
    Beside,
}

/// An act that waits for the term behind it, with the variable that its value is bound to.
#[derive(Drop)]
pub struct Link {
    pub joint: Joint,
    pub bound: Option<Name>,
    pub act: Act,
}

/// A part of an act that waits for a term.
#[derive(Drop)]
pub enum TermFrame {
    /// `if` for the term of its first side.
    FirstSide {
        at: u32,
        condition: Expr,
    },
    SecondSide {
        at: u32,
        condition: Expr,
        first: Term,
    },
    /// `{` for its term.
    Blocking {
        at: u32,
    },
}

/// What waits for a part of it.
#[derive(Drop)]
pub enum Frame {
    Term(TermFrame),
    Link(Link),
    /// `let` and a name for the act whose value it binds.
    Binding(Name),
}

/// The frames of a thread.
#[derive(Drop)]
pub struct Stack {
    frames: Vec<Frame>,
}

impl Stack {
    /// With no frame.
    pub fn new(alloc: Global) -> Stack
        ensures { stack_of result ≡ [] }
    {
        Stack {
            frames: Vec::new(alloc),
        }
    }

    /// Puts a frame on top.
    pub fn push(&mut self, frame: Frame) -> Result<(), ParseErr>
        ensures pushed { OnOk result (stack_of self.new ≡ frame_of frame ∷ stack_of self.old) }
        ensures full { IfErr result (λ refusal. refusal ≡ ParseErr.NoMemory) }
    {
        push(&mut self.frames, frame)
    }

    /// Takes the frame on top.
    pub fn pop(&mut self) -> Option<Frame>
        ensures { MatchOption result
            ((stack_of self.old ≡ []) × (stack_of self.new ≡ []))
            (λ frame. stack_of self.old ≡ frame_of frame ∷ stack_of self.new) }
    {
        self.frames.pop()
    }

    // The frame on top.
    fn top(&self) -> Option<&Frame>
        ensures { MatchOption result
            (stack_of self.now ≡ [])
            (λ frame. (below : List states.Frame) × (stack_of self.now ≡ frame_of frame.now ∷ below)) }
    {
        self.frames.last()
    }

    /// Takes the variable that waits for an act, where one does.
    pub fn pop_bound(&mut self) -> Option<Name>
        ensures found { result ≡ bound_of (stack_of self.old) }
        ensures below { stack_of self.new ≡ unbound (stack_of self.old) }
    {
        match self.top() {
            Some(Frame::Binding(_)) => match self.pop() {
                Some(frame) => name_of(frame),
                None => None,
            },
            _ => None,
        }
    }
}

// The variable that a frame binds.
fn name_of(frame: Frame) -> Option<Name>
    ensures { result ≡ bound_of (frame_of frame ∷ []) }
{
    match frame {
        Frame::Binding(name) => Some(name),
        Frame::Term(part) => none_of(part),
        Frame::Link(link) => none_of(link),
    }
}

// None, in place of a value that is let go.
fn none_of<T: Drop, R: Drop>(_value: T) -> Option<R>
    ensures { result ≡ None }
{
    None
}
