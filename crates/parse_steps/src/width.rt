//! Reads `logic [ width ]` token by token.
ghost use Rattle.std.specs.Prelude.{◌≡◌};
ghost use Rattle.anvil_grammar.specs.Step.{width_step};
ghost use Rattle.parse_steps.specs.Seen.{IsReached};
ghost use Rattle.parse_steps.specs.SeenWidth.{width_state_of, width_of};

use crate::step::{Begun, Reached};
use anvil_grammar::ParseErr;
use anvil_lexer::{Keyword, Mark, Token, TokenKind};

/// A width in bits with its place.
#[derive(Clone, Copy)]
pub struct Width {
    pub width: u32,
    pub width_at: u32,
}

/// What is wanted next in `logic [ width ]`.
#[derive(Clone, Copy)]
pub enum WidthState {
    Logic,
    Opening,
    Number,
    Closing(Width),
}

/// Reads on in `logic [ width ]`.
pub fn width_step(state: &mut WidthState, token: &Token) -> Result<Reached<Width>, ParseErr>
    ensures { IsReached (width_state_of state.new) width_of token.now
        (width_step (width_state_of state.old) token.now) result }
{
    *state = match (*state, &token.kind) {
        (WidthState::Logic, TokenKind::Key(Keyword::Logic)) => WidthState::Opening,
        (WidthState::Opening, TokenKind::Mark(Mark::OpenBracket)) => WidthState::Number,
        (WidthState::Number, TokenKind::Number(width)) => WidthState::Closing(Width {
            width: *width,
            width_at: token.at,
        }),
        (WidthState::Closing(width), TokenKind::Mark(Mark::CloseBracket)) => {
            return Ok(Reached::Finished(width));
        }
        _ => return Err(ParseErr::Unexpected { at: token.at }),
    };
    Ok(Reached::Onward(Begun::Nothing))
}
