//! What each token does in an expression.
ghost use Rattle.std.specs.Prelude.{◌≡◌, ◌≢◌, ◌⊎◌, ◌∷◌, List, None, Some, MatchResult};
ghost use Rattle.anvil_grammar.specs.State as states;
ghost use Rattle.anvil_grammar.specs.Step.{at_state, onward, operator_at, settled};
ghost use Rattle.anvil_tree.specs.View.{expr_of};
ghost use Rattle.parse_expressions.specs.Read.{ends_read, function_read, inner_read, operand_read, operator_read, parenthesis_read, part_read, read_at, word_read};
ghost use Rattle.parse_expressions.specs.Seen.{IsNext, frame_of, next_of, nodes_of, slice_of, stack_of, state_of, taken_by};

use crate::expect::is_mark;
use crate::expression::{SliceState, State};
use crate::frames::{Frame, Frames};
use crate::nodes::{binary, choice, inverse};
use crate::operator::{function_at, operator_at, strength};
use crate::room::{first_of, refuse};
use anvil_grammar::ParseErr;
use anvil_lexer::{Mark, Name, Token, TokenKind};
use anvil_tree::{BinOp, Expr, ExprKind};
use std::alloc::Global;

/// Where a token leads in an expression.
#[derive(Drop)]
pub enum Next {
    /// The reading goes on at the state, with the place of the node that begins.
    Onward(Option<u32>, State),
    /// The expression is whole, and the token follows it.
    Whole(Expr),
}

/// Where a token leads, or why it cannot stand there.
pub type NextStep = Result<Next, ParseErr>;

// The operand, as a frame takes it.
fn taken(alloc: Global, frame: Frame, operand: Expr) -> Result<Expr, ParseErr>
    ensures { MatchResult result
        (λ expr. expr_of expr ≡ taken_by (frame_of frame) (expr_of operand))
        (λ refusal. refusal ≡ ParseErr.NoMemory) }
{
    match frame {
        Frame::Inverting { at } => inverse(alloc, at, operand),
        Frame::Operating { operator, at, left } => binary(alloc, at, operator, left, operand),
        Frame::ChoosingSecond {
            at,
            condition,
            first,
        } => choice(alloc, at, condition, first, operand),
        other => Ok(first_of(operand, other)),
    }
}

// The operand, taken by each frame that has it ahead of a token of the strength.
#[tactic(auto, using(crate::proofs::Settling::settled_taken, crate::proofs::Settling::settled_left))]
fn settled(alloc: Global, frames: &mut Frames, operand: Expr, strong: u8) -> Result<Expr, ParseErr>
    ensures { MatchResult result
        (λ found. settled strong (stack_of frames.old) (expr_of operand)
        ≡ record { stack = stack_of frames.new; operand = expr_of found })
        (λ refusal. refusal ≡ ParseErr.NoMemory) }
{
    let mut operand = operand;
    while let Some(frame) = frames.pop_taking(strong) {
        match taken(alloc, frame, operand) {
            Ok(expr) => operand = expr,
            Err(refusal) => return Err(refusal),
        }
    }
    Ok(operand)
}

// A frame waits for its operand.
fn waits(frames: &mut Frames, begun: Option<u32>, frame: Frame) -> NextStep
    ensures { MatchResult result
        (λ next. next_of (stack_of frames.new) next
        ≡ onward (nodes_of begun) (at_state (frame_of frame ∷ stack_of frames.old) states.operand_wanted))
        (λ refusal. refusal ≡ ParseErr.NoMemory) }
{
    match frames.push(frame) {
        Ok(()) => Ok(Next::Onward(begun, State::Operand)),
        Err(refusal) => Err(refusal),
    }
}

// A frame waits for its operand behind the mark.
fn waits_behind(frames: &mut Frames, token: &Token, mark: Mark, frame: Frame) -> NextStep
    ensures { MatchResult result
        (λ next. (token.now.kind ≡ TokenKind.Mark mark)
        × (next_of (stack_of frames.new) next
        ≡ onward (nodes_of None) (at_state (frame_of frame ∷ stack_of frames.old) states.operand_wanted)))
        (λ refusal. (refusal ≡ ParseErr.NoMemory)
        ⊎ ((token.now.kind ≢ TokenKind.Mark mark) × (refusal ≡ ParseErr.Unexpected token.now.at))) }
{
    if is_mark(token, mark) {
        waits(frames, None, frame)
    } else {
        refuse(frame, token)
    }
}

// An operand begins.
fn operand_step(frames: &mut Frames, token: &Token) -> NextStep
    ensures { IsNext (stack_of frames.new) token.now
        (operand_read (stack_of frames.old) token.now token.now.kind) result }
{
    let at = token.at;
    match &token.kind {
        TokenKind::Mark(Mark::Tilde) => waits(frames, Some(at), Frame::Inverting { at }),
        TokenKind::Mark(Mark::Star) => Ok(Next::Onward(Some(at), State::ShownRegister { at })),
        TokenKind::Literal { width, value } => {
            let literal = Expr {
                at,
                kind: ExprKind::Lit {
                    width: *width,
                    value: *value,
                },
            };
            Ok(Next::Onward(Some(at), State::AfterOperand(literal)))
        }
        TokenKind::Word(name) => {
            let name = name.copy();
            Ok(Next::Onward(Some(at), State::AfterWord { at, name }))
        }
        TokenKind::Mark(Mark::OpenParen) => Ok(Next::Onward(None, State::ParenthesisOpened { at })),
        kind => function_step(frames, token, function_at(kind)),
    }
}

// The name of a function begins an operand.
fn function_step(frames: &mut Frames, token: &Token, function: Option<BinOp>) -> NextStep
    ensures { IsNext (stack_of frames.new) token.now
        (function_read (stack_of frames.old) token.now function) result }
{
    match function {
        Some(operator) => {
            let at = token.at;
            Ok(Next::Onward(Some(at), State::CallOpening { operator, at }))
        }
        None => Err(ParseErr::Unexpected { at: token.at }),
    }
}

// `(` was read: with `)` it is the unit, and else it begins a group.
fn parenthesis_step(frames: &mut Frames, at: u32, token: &Token) -> NextStep
    ensures { IsNext (stack_of frames.new) token.now
        (parenthesis_read (stack_of frames.old) at token.now token.now.kind) result }
{
    if is_mark(token, Mark::CloseParen) {
        let unit = Expr {
            at,
            kind: ExprKind::Unit,
        };
        return Ok(Next::Onward(Some(at), State::AfterOperand(unit)));
    }
    match frames.push(Frame::Grouping) {
        Ok(()) => operand_step(frames, token),
        Err(refusal) => Err(refusal),
    }
}

// An operand is whole, and the token follows it.
fn operand_ends(alloc: Global, frames: &mut Frames, operand: Expr, token: &Token) -> NextStep
    ensures { IsNext (stack_of frames.new) token.now
        (ends_read (stack_of frames.old) (expr_of operand) token.now) result }
{
    match settled(alloc, frames, operand, strength(&token.kind)) {
        Ok(operand) => operator_step(alloc, frames, operand, token),
        Err(refusal) => Err(refusal),
    }
}

// The operand that the frames have left: an operator or `?` goes on with it, or a part that holds it is whole.
fn operator_step(alloc: Global, frames: &mut Frames, operand: Expr, token: &Token) -> NextStep
    ensures { IsNext (stack_of frames.new) token.now
        (operator_read (stack_of frames.old) (expr_of operand) token.now (operator_at token.now.kind)) result }
{
    match operator_at(&token.kind) {
        Some(operator) => operates(frames, operand, operator, token),
        None if strength(&token.kind) == 1 => {
            let frame = Frame::Choosing {
                at: token.at,
                condition: operand,
            };
            waits(frames, Some(token.at), frame)
        }
        None => part_step(alloc, frames, operand, token),
    }
}

// An operator waits for its second operand, but for a comparison of what was compared.
fn operates(frames: &mut Frames, left: Expr, operator: BinOp, token: &Token) -> NextStep
    ensures { IsNext (stack_of frames.new) token.now
        (operator_read (stack_of frames.old) (expr_of left) token.now (Some operator)) result }
{
    if frames.compares(operator) {
        return refuse(left, token);
    }
    let frame = Frame::Operating {
        operator,
        at: token.at,
        left,
    };
    waits(frames, Some(token.at), frame)
}

// An expression is whole: the part that waits for it goes on, or no part does.
fn part_step(alloc: Global, frames: &mut Frames, expr: Expr, token: &Token) -> NextStep
    ensures { IsNext (stack_of frames.new) token.now
        (part_read (stack_of frames.old) (expr_of expr) token.now.kind) result }
{
    match frames.pop() {
        None => Ok(Next::Whole(expr)),
        Some(frame) => frame_step(alloc, frames, frame, expr, token),
    }
}

// The expression that a part of another waits for is whole.
fn frame_step(
    alloc: Global,
    frames: &mut Frames,
    frame: Frame,
    expr: Expr,
    token: &Token,
) -> NextStep
    ensures { IsNext (stack_of frames.new) token.now
        (part_read (frame_of frame ∷ stack_of frames.old) (expr_of expr) token.now.kind) result }
{
    match frame {
        Frame::Grouping => closes(expr, token),
        Frame::Calling { operator, at } => {
            let frame = Frame::CallingSecond {
                operator,
                at,
                first: expr,
            };
            waits_behind(frames, token, Mark::Comma, frame)
        }
        Frame::CallingSecond {
            operator,
            at,
            first,
        } => match binary(alloc, at, operator, first, expr) {
            Ok(whole) => closes(whole, token),
            Err(refusal) => Err(refusal),
        },
        Frame::Choosing { at, condition } => {
            let frame = Frame::ChoosingSecond {
                at,
                condition,
                first: expr,
            };
            waits_behind(frames, token, Mark::Colon, frame)
        }
        other => refuse((other, expr), token),
    }
}

// `)` closes an operand.
fn closes(operand: Expr, token: &Token) -> NextStep
    ensures { MatchResult result
        (λ next. (token.now.kind ≡ TokenKind.Mark Mark.CloseParen)
        × (next ≡ Next.Onward None (State.AfterOperand operand)))
        (λ refusal. (token.now.kind ≢ TokenKind.Mark Mark.CloseParen) × (refusal ≡ ParseErr.Unexpected token.now.at)) }
{
    if is_mark(token, Mark::CloseParen) {
        Ok(Next::Onward(None, State::AfterOperand(operand)))
    } else {
        refuse(operand, token)
    }
}

// A slice goes on with a word, or the word is a variable.
fn word_step(alloc: Global, frames: &mut Frames, at: u32, name: Name, token: &Token) -> NextStep
    ensures { IsNext (stack_of frames.new) token.now
        (word_read (stack_of frames.old) at name token.now token.now.kind) result }
{
    match &token.kind {
        TokenKind::Mark(Mark::OpenBracket) => {
            let wanted = SliceState::High;
            Ok(Next::Onward(None, State::InSlice { at, name, wanted }))
        }
        _ => {
            let variable = Expr {
                at,
                kind: ExprKind::Var(name),
            };
            operand_ends(alloc, frames, variable, token)
        }
    }
}

// `*` was read, and the token names its register.
fn shown_step(at: u32, token: &Token) -> NextStep
    ensures { (stack : List states.Frame)
        → IsNext stack token.now (inner_read stack (states.shown_register at) token.now token.now.kind) result }
{
    match &token.kind {
        TokenKind::Word(name) => {
            let shown = Expr {
                at,
                kind: ExprKind::Deref(name.copy()),
            };
            Ok(Next::Onward(None, State::AfterOperand(shown)))
        }
        _ => Err(ParseErr::Unexpected { at: token.at }),
    }
}

// Inside the brackets of a slice.
fn slice_step(at: u32, name: Name, wanted: SliceState, token: &Token) -> NextStep
    ensures { (stack : List states.Frame)
        → IsNext stack token.now (read_at stack (slice_of at name wanted) token.now) result }
{
    let wanted = match (wanted, &token.kind) {
        (SliceState::High, TokenKind::Number(high)) => SliceState::Colon(*high),
        (SliceState::Colon(high), TokenKind::Mark(Mark::Colon)) => SliceState::Low(high),
        (SliceState::Low(high), TokenKind::Number(low)) => SliceState::Closing(high, *low),
        (SliceState::Closing(high, low), TokenKind::Mark(Mark::CloseBracket)) => {
            let slice = Expr {
                at,
                kind: ExprKind::Slice { name, high, low },
            };
            return Ok(Next::Onward(None, State::AfterOperand(slice)));
        }
        _ => return refuse(name, token),
    };
    Ok(Next::Onward(None, State::InSlice { at, name, wanted }))
}

/// Where the token leads at the state.
pub fn step_at(alloc: Global, frames: &mut Frames, state: State, token: &Token) -> NextStep
    ensures { IsNext (stack_of frames.new) token.now
        (read_at (stack_of frames.old) (state_of state) token.now) result }
{
    match state {
        State::Operand => operand_step(frames, token),
        State::ShownRegister { at } => shown_step(at, token),
        State::ParenthesisOpened { at } => parenthesis_step(frames, at, token),
        State::CallOpening { operator, at } => {
            waits_behind(
                frames,
                token,
                Mark::OpenParen,
                Frame::Calling { operator, at },
            )
        }
        State::AfterWord { at, name } => word_step(alloc, frames, at, name, token),
        State::InSlice { at, name, wanted } => slice_step(at, name, wanted, token),
        State::AfterOperand(operand) => operand_ends(alloc, frames, operand, token),
    }
}
