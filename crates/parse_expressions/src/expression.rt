//! Where the reading of an expression stands.
ghost use Rattle.std.specs.Prelude.{◌≡◌, []};
ghost use Rattle.anvil_grammar.specs.State as states;
ghost use Rattle.anvil_grammar.specs.Step.{at_state};
ghost use Rattle.parse_expressions.specs.Read.{expression_read};
ghost use Rattle.parse_expressions.specs.Seen.{IsRead, expression_of};

use crate::frames::Frames;
use crate::read::{Next, step_at};
use crate::room::put;
use anvil_grammar::ParseErr;
use anvil_lexer::{Name, Token};
use anvil_tree::{BinOp, Expr};
use std::alloc::Global;
use std::mem;

/// What is wanted next in `[high:low]`, with the numbers so far.
#[derive(Clone, Copy)]
pub enum SliceState {
    High,
    Colon(u32),
    Low(u32),
    Closing(u32, u32),
}

/// What is wanted next in an expression.
#[derive(Drop)]
pub enum State {
    Operand,
    ShownRegister {
        at: u32,
    },
    ParenthesisOpened {
        at: u32,
    },
    CallOpening {
        operator: BinOp,
        at: u32,
    },
    AfterWord {
        at: u32,
        name: Name,
    },
    InSlice {
        at: u32,
        name: Name,
        wanted: SliceState,
    },
    AfterOperand(Expr),
}

/// An expression that is being read.
pub struct Expression {
    pub frames: Frames,
    pub state: State,
}

/// As it would be derived. What holds an expression then calls this, and needs no proof for each type of a frame or state.
impl Drop for Expression {
    fn drop(self) {
        let Expression { frames, state } = self;
        mem::drop(frames);
        mem::drop(state);
    }
}

/// What a token comes to in an expression.
#[derive(Drop)]
pub enum Read {
    /// The reading goes on, with the place of the node that begins.
    Onward(Option<u32>),
    /// The expression is whole, and the token follows it.
    Whole(Expr),
}

pub type ExpressionStep = Result<Read, ParseErr>;

impl Expression {
    /// Before the first token.
    pub fn new(alloc: Global) -> Expression
        ensures { expression_of result ≡ at_state [] states.operand_wanted }
    {
        Expression {
            frames: Frames::new(alloc),
            state: State::Operand,
        }
    }

    /// Reads on in an expression.
    pub fn step(&mut self, alloc: Global, token: &Token) -> ExpressionStep
        ensures { IsRead (expression_of self.new) token.now
            (expression_read (expression_of self.old) token.now) result }
    {
        let state = mem::replace(&mut self.state, State::Operand);
        match step_at(alloc, &mut self.frames, state, token) {
            Ok(Next::Onward(begun, state)) => {
                put(&mut self.state, state);
                Ok(Read::Onward(begun))
            }
            Ok(Next::Whole(expr)) => Ok(Read::Whole(expr)),
            Err(refusal) => Err(refusal),
        }
    }
}
