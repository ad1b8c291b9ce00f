//! Reads a message of a class token by token, from behind its side to its `)`.
ghost use Rattle.std.specs.Prelude.{◌≡◌};
ghost use Rattle.anvil_grammar.specs.Step.{message_of, message_step};
ghost use Rattle.parse_steps.specs.Seen.{IsReached, label_of, same};
ghost use Rattle.parse_classes.specs.SeenClass.{message_draft_of, message_state_of};
ghost use Rattle.parse_steps.specs.SeenWidth.{width_of};

use anvil_grammar::ParseErr;
use anvil_lexer::{Mark, Token, TokenKind};
use anvil_tree::{LifeText, Message, Side};
use parse_steps::{Label, Reached, Width, WidthState, await_mark, goes_on, width_step, word};

/// What is wanted next in a message, behind its name.
#[derive(Drop)]
pub enum MessageWanted {
    Colon,
    Opening,
    Width(WidthState),
    At(Width),
    Life(Width),
    Count(Width),
    Closing {
        width: Width,
        life: LifeText,
        life_at: u32,
    },
}

/// A message up to some token behind its name.
#[derive(Drop)]
pub struct MessageDraft {
    pub toward: Side,
    pub label: Label,
    pub wanted: MessageWanted,
}

/// What is wanted next in a message, behind its side.
#[derive(Drop)]
pub enum MessageState {
    Name(Side),
    Labelled(MessageDraft),
}

/// What a token comes to in a message.
pub type MessageStep = Result<Reached<Message>, ParseErr>;

/// Reads on in a message.
pub fn message_step(state: &mut MessageState, token: &Token) -> MessageStep
    ensures { IsReached (message_state_of state.new) same token.now
        (message_step (message_state_of state.old) token.now) result }
{
    match state {
        MessageState::Name(toward) => match word(token) {
            Ok(label) => {
                let draft = MessageDraft {
                    toward: *toward,
                    label,
                    wanted: MessageWanted::Colon,
                };
                goes_on(state, MessageState::Labelled(draft))
            }
            Err(refusal) => Err(refusal),
        },
        MessageState::Labelled(draft) => draft.step(token),
    }
}

impl MessageDraft {
    // Behind the name.
    fn step(&mut self, token: &Token) -> MessageStep
        ensures { IsReached (message_draft_of self.new) same token.now
            (message_step (message_draft_of self.old) token.now) result }
    {
        match &mut self.wanted {
            MessageWanted::Colon => await_mark(
                token,
                Mark::Colon,
                &mut self.wanted,
                MessageWanted::Opening,
            ),
            MessageWanted::Opening => await_mark(
                token,
                Mark::OpenParen,
                &mut self.wanted,
                MessageWanted::Width(WidthState::Logic),
            ),
            MessageWanted::Width(state) => match width_step(state, token) {
                Ok(Reached::Onward(begun)) => Ok(Reached::Onward(begun)),
                Ok(Reached::Finished(width)) => goes_on(&mut self.wanted, MessageWanted::At(width)),
                Err(refusal) => Err(refusal),
            },
            MessageWanted::At(width) => {
                let next = MessageWanted::Life(*width);
                await_mark(token, Mark::At, &mut self.wanted, next)
            }
            MessageWanted::Life(width) => {
                let width = *width;
                self.life_step(width, token)
            }
            MessageWanted::Count(width) => {
                let width = *width;
                self.count_step(width, token)
            }
            MessageWanted::Closing {
                width,
                life,
                life_at,
            } => match &token.kind {
                TokenKind::Mark(Mark::CloseParen) => Ok(Reached::Finished(message_of(
                    self.toward,
                    &self.label,
                    *width,
                    life,
                    *life_at,
                ))),
                _ => Err(ParseErr::Unexpected { at: token.at }),
            },
        }
    }

    // Behind the `@`: the life of the message.
    fn life_step(&mut self, width: Width, token: &Token) -> MessageStep
        ensures { IsReached (message_draft_of self.new) same token.now
            (message_step (message_draft_of (record self.old { wanted = MessageWanted.Life width })) token.now) result }
    {
        match &token.kind {
            TokenKind::Mark(Mark::Hash) => goes_on(&mut self.wanted, MessageWanted::Count(width)),
            TokenKind::Word(name) => {
                let next = MessageWanted::Closing {
                    width,
                    life: LifeText::Until(name.copy()),
                    life_at: token.at,
                };
                goes_on(&mut self.wanted, next)
            }
            _ => Err(ParseErr::Unexpected { at: token.at }),
        }
    }

    // Behind the `#`: the number of cycles.
    fn count_step(&mut self, width: Width, token: &Token) -> MessageStep
        ensures { IsReached (message_draft_of self.new) same token.now
            (message_step (message_draft_of (record self.old { wanted = MessageWanted.Count width }))
            token.now) result }
    {
        match &token.kind {
            TokenKind::Number(count) => {
                let next = MessageWanted::Closing {
                    width,
                    life: LifeText::Cycles(*count),
                    life_at: token.at,
                };
                goes_on(&mut self.wanted, next)
            }
            _ => Err(ParseErr::Unexpected { at: token.at }),
        }
    }
}

// The message whose parts have been read.
fn message_of(toward: Side, label: &Label, width: Width, life: &LifeText, life_at: u32) -> Message
    ensures { result ≡ message_of toward (label_of label.now) (width_of width) life.now life_at }
{
    Message {
        toward,
        name: label.name.copy(),
        at: label.at,
        width: width.width,
        width_at: width.width_at,
        life: copy_of(life),
        life_at,
    }
}

// The same life once more.
fn copy_of(life: &LifeText) -> LifeText
    ensures { result ≡ life.now }
{
    match life {
        LifeText::Cycles(count) => LifeText::Cycles(*count),
        LifeText::Until(name) => LifeText::Until(name.copy()),
    }
}
