//! The parts of an expression that wait while one of their operands is read, the innermost on top.
ghost use Rattle.std.specs.Prelude.{◌≡◌, ◌∷◌, [], List, false, true, IfErr, MatchOption, OnOk};
ghost use Rattle.anvil_grammar.specs.State as states;
ghost use Rattle.anvil_grammar.specs.Step.{compares};
ghost use Rattle.parse_expressions.specs.Seen.{frame_of, stack_of, takes_operand};

use crate::operator::{is_comparison, takes_first};
use crate::room::push;
use anvil_grammar::ParseErr;
use anvil_tree::{BinOp, Expr};
use std::alloc::Global;

/// A part of an expression that waits for an operand or an expression. A place is that of the token that the whole is
/// named by.
#[derive(Drop)]
pub enum Frame {
    /// `~` for its operand.
    Inverting {
        at: u32,
    },
    /// An operator for its second operand.
    Operating {
        operator: BinOp,
        at: u32,
        left: Expr,
    },
    /// `(` for its expression.
    Grouping,
    /// The name of a function and `(` for the first operand.
    Calling {
        operator: BinOp,
        at: u32,
    },
    CallingSecond {
        operator: BinOp,
        at: u32,
        first: Expr,
    },
    /// `?` for what is chosen where the condition is 1.
    Choosing {
        at: u32,
        condition: Expr,
    },
    ChoosingSecond {
        at: u32,
        condition: Expr,
        first: Expr,
    },
}

/// The frames of an expression.
#[derive(Drop)]
pub struct Frames {
    frames: Vec<Frame>,
}

impl Frames {
    /// With no frame.
    pub fn new(alloc: Global) -> Frames
        ensures { stack_of result ≡ [] }
    {
        Frames {
            frames: Vec::new(alloc),
        }
    }

    /// Puts a frame on top.
    pub fn push(&mut self, frame: Frame) -> Result<(), ParseErr>
        ensures pushed { OnOk result (stack_of self.new ≡ frame_of frame ∷ stack_of self.old) }
        ensures full { IfErr result (λ refusal. refusal ≡ ParseErr.NoMemory) }
    {
        push(&mut self.frames, frame)
    }

    /// Takes the frame on top.
    pub fn pop(&mut self) -> Option<Frame>
        ensures { MatchOption result
            ((stack_of self.old ≡ []) × (stack_of self.new ≡ []))
            (λ frame. stack_of self.old ≡ frame_of frame ∷ stack_of self.new) }
    {
        self.frames.pop()
    }

    // The frame on top.
    fn top(&self) -> Option<&Frame>
        ensures { MatchOption result
            (stack_of self.now ≡ [])
            (λ frame. (below : List states.Frame) × (stack_of self.now ≡ frame_of frame.now ∷ below)) }
    {
        self.frames.last()
    }

    // Whether the frame on top takes the operand ahead of a token of the strength.
    fn takes_operand(&self, strong: u8) -> bool
        ensures { result ≡ takes_operand strong (stack_of self.now) }
    {
        match self.top() {
            Some(Frame::Inverting { .. }) => true,
            Some(Frame::Operating { operator, .. }) => takes_first(*operator, strong),
            Some(Frame::ChoosingSecond { .. }) => strong == 0,
            _ => false,
        }
    }

    /// Takes the frame on top where that takes the operand ahead of a token of the strength.
    pub fn pop_taking(&mut self, strong: u8) -> Option<Frame>
        ensures { MatchOption result
            ((takes_operand strong (stack_of self.old) ≡ false) × (stack_of self.new ≡ stack_of self.old))
            (λ frame. (takes_operand strong (stack_of self.old) ≡ true)
            × (stack_of self.old ≡ frame_of frame ∷ stack_of self.new)) }
    {
        if self.takes_operand(strong) {
            self.pop()
        } else {
            None
        }
    }

    /// Whether both the frame on top and the operator compare.
    pub fn compares(&self, operator: BinOp) -> bool
        ensures { result ≡ compares (stack_of self.now) operator }
    {
        match self.top() {
            Some(
                Frame::Operating {
                    operator: before,
                    ..
                },
            ) => { is_comparison(*before) && is_comparison(operator) }
            _ => false,
        }
    }
}
