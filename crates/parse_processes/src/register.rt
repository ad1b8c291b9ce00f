//! Reads a register of a process token by token, from behind `reg` to its `;`.
ghost use Rattle.std.specs.Prelude.{◌≡◌};
ghost use Rattle.anvil_grammar.specs.Step.{register_of, register_step};
ghost use Rattle.parse_steps.specs.Seen.{IsReached, label_of, same};
ghost use Rattle.parse_processes.specs.SeenParts.{register_draft_of, register_state_of};
ghost use Rattle.parse_steps.specs.SeenWidth.{width_of};

use anvil_grammar::ParseErr;
use anvil_lexer::{Mark, Token, TokenKind};
use anvil_tree::{LiteralText, Register};
use parse_steps::{Label, Reached, Width, WidthState, await_mark, goes_on, width_step, word};

/// What is wanted next in a register, behind its name.
#[derive(Clone, Copy)]
pub enum RegisterWanted {
    Colon,
    Width(WidthState),
    Reset(Width),
    Literal(Width),
    End(Width, LiteralText),
}

/// A register up to some token behind its name.
#[derive(Drop)]
pub struct RegisterDraft {
    pub label: Label,
    pub wanted: RegisterWanted,
}

/// What is wanted next in a register, behind `reg`.
#[derive(Drop)]
pub enum RegisterState {
    Name,
    Labelled(RegisterDraft),
}

/// Reads on in a register.
pub fn register_step(
    state: &mut RegisterState,
    token: &Token,
) -> Result<Reached<Register>, ParseErr>
    ensures { IsReached (register_state_of state.new) same token.now
        (register_step (register_state_of state.old) token.now) result }
{
    match state {
        RegisterState::Name => match word(token) {
            Ok(label) => {
                let wanted = RegisterWanted::Colon;
                goes_on(
                    state,
                    RegisterState::Labelled(RegisterDraft { label, wanted }),
                )
            }
            Err(refusal) => Err(refusal),
        },
        RegisterState::Labelled(draft) => draft.step(token),
    }
}

impl RegisterDraft {
    // Behind the name.
    fn step(&mut self, token: &Token) -> Result<Reached<Register>, ParseErr>
        ensures { IsReached (register_draft_of self.new) same token.now
            (register_step (register_draft_of self.old) token.now) result }
    {
        match self.wanted {
            RegisterWanted::Colon => await_mark(
                token,
                Mark::Colon,
                &mut self.wanted,
                RegisterWanted::Width(WidthState::Logic),
            ),
            RegisterWanted::Width(state) => self.in_width_step(state, token),
            RegisterWanted::Reset(width) => self.reset_step(width, token),
            RegisterWanted::Literal(width) => self.literal_step(width, token),
            RegisterWanted::End(width, reset) => match &token.kind {
                TokenKind::Mark(Mark::Semicolon) => Ok(Reached::Finished(self.whole(
                    width,
                    Some(reset),
                ))),
                _ => Err(ParseErr::Unexpected { at: token.at }),
            },
        }
    }

    // In the width.
    fn in_width_step(
        &mut self,
        state: WidthState,
        token: &Token,
    ) -> Result<Reached<Register>, ParseErr>
        ensures { IsReached (register_draft_of self.new) same token.now
            (register_step (register_draft_of (record self.old { wanted = RegisterWanted.Width state }))
            token.now) result }
    {
        let mut state = state;
        match width_step(&mut state, token) {
            Ok(Reached::Onward(begun)) => {
                self.wanted = RegisterWanted::Width(state);
                Ok(Reached::Onward(begun))
            }
            Ok(Reached::Finished(width)) => goes_on(&mut self.wanted, RegisterWanted::Reset(width)),
            Err(refusal) => Err(refusal),
        }
    }

    // Behind the width: a reset value is said, or the register is whole.
    fn reset_step(&mut self, width: Width, token: &Token) -> Result<Reached<Register>, ParseErr>
        ensures { IsReached (register_draft_of self.new) same token.now
            (register_step (register_draft_of (record self.old { wanted = RegisterWanted.Reset width }))
            token.now) result }
    {
        match &token.kind {
            TokenKind::Mark(Mark::Equals) => goes_on(
                &mut self.wanted,
                RegisterWanted::Literal(width),
            ),
            TokenKind::Mark(Mark::Semicolon) => Ok(Reached::Finished(self.whole(width, None))),
            _ => Err(ParseErr::Unexpected { at: token.at }),
        }
    }

    // The literal that the register is reset to.
    fn literal_step(&mut self, width: Width, token: &Token) -> Result<Reached<Register>, ParseErr>
        ensures { IsReached (register_draft_of self.new) same token.now
            (register_step (register_draft_of (record self.old { wanted = RegisterWanted.Literal width }))
            token.now) result }
    {
        match &token.kind {
            TokenKind::Literal { width: bits, value } => {
                let reset = LiteralText {
                    width: *bits,
                    value: *value,
                    at: token.at,
                };
                goes_on(&mut self.wanted, RegisterWanted::End(width, reset))
            }
            _ => Err(ParseErr::Unexpected { at: token.at }),
        }
    }

    // The register whose parts have been read.
    fn whole(&self, width: Width, reset: Option<LiteralText>) -> Register
        ensures { result ≡ register_of (label_of self.now.label) (width_of width) reset }
    {
        Register {
            name: self.label.name.copy(),
            at: self.label.at,
            width: width.width,
            width_at: width.width_at,
            reset,
        }
    }
}
