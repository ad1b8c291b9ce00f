//! Reads a class token by token, from behind `chan` to its `}`.
ghost use Rattle.std.specs.Prelude.{◌≡◌, MatchResult};
ghost use Rattle.anvil_tree.specs.View.{class_of};
ghost use Rattle.anvil_grammar.specs.Words.{side_of};
ghost use Rattle.anvil_grammar.specs.State as states;
ghost use Rattle.anvil_grammar.specs.Step.{class_of_draft, class_step, quietly, side_step, with_message};
ghost use Rattle.parse_steps.specs.Seen.{IsReached, reached_of};
ghost use Rattle.parse_classes.specs.SeenClass.{class_inside_of, class_parts_of, class_state_of};

use crate::message::{MessageState, message_step};
use anvil_grammar::{Counted, ParseErr};
use anvil_lexer::{Mark, Token, TokenKind};
use anvil_tree::{Chan, Message};
use parse_expressions::push;
use parse_steps::{Label, Reached, await_mark, begins, goes_on, side, word};
use std::alloc::Global;
use std::mem;

/// What is wanted next in a class, behind its `{`.
#[derive(Drop)]
pub enum ClassWanted {
    FirstMessage,
    InMessage(MessageState),
    AfterMessage,
    AfterComma,
}

/// A class up to some token behind its `{`, with the messages that are whole.
#[derive(Drop)]
pub struct ClassDraft {
    pub label: Label,
    pub messages: Vec<Message>,
    pub wanted: ClassWanted,
}

/// What is wanted next in a class, behind `chan`.
#[derive(Drop)]
pub enum ClassState {
    Name,
    Opening(Label),
    Inside(ClassDraft),
}

/// What a token comes to in a class.
pub type ClassStep = Result<Reached<Chan>, ParseErr>;

/// Reads on in a class.
pub fn class_step(alloc: Global, state: &mut ClassState, token: &Token) -> ClassStep
    ensures { IsReached (class_state_of state.new) class_of token.now
        (class_step (class_state_of state.old) token.now) result }
{
    match state {
        ClassState::Name => match word(token) {
            Ok(label) => goes_on(state, ClassState::Opening(label)),
            Err(refusal) => Err(refusal),
        },
        ClassState::Opening(label) => {
            let draft = ClassDraft {
                label: label.copy(),
                messages: Vec::new(alloc),
                wanted: ClassWanted::FirstMessage,
            };
            await_mark(token, Mark::OpenBrace, state, ClassState::Inside(draft))
        }
        ClassState::Inside(draft) => draft.step(alloc, token),
    }
}

impl ClassDraft {
    // Behind the `{`.
    fn step(&mut self, alloc: Global, token: &Token) -> ClassStep
        ensures { IsReached (class_inside_of self.new) class_of token.now
            (class_step (class_inside_of self.old) token.now) result }
    {
        match &mut self.wanted {
            ClassWanted::FirstMessage => self.side_step(token),
            ClassWanted::InMessage(state) => match message_step(state, token) {
                Ok(Reached::Onward(begun)) => Ok(Reached::Onward(begun)),
                Ok(Reached::Finished(message)) => self.add(message),
                Err(refusal) => Err(refusal),
            },
            ClassWanted::AfterMessage => match &token.kind {
                TokenKind::Mark(Mark::Comma) => goes_on(&mut self.wanted, ClassWanted::AfterComma),
                TokenKind::Mark(Mark::CloseBrace) => Ok(Reached::Finished(self.take_class(alloc))),
                _ => Err(ParseErr::Unexpected { at: token.at }),
            },
            ClassWanted::AfterComma => match &token.kind {
                TokenKind::Mark(Mark::CloseBrace) => Ok(Reached::Finished(self.take_class(alloc))),
                _ => self.side_step(token),
            },
        }
    }

    // A message begins with its side.
    fn side_step(&mut self, token: &Token) -> ClassStep
        ensures { IsReached (class_inside_of self.new) class_of token.now
            (side_step (class_parts_of self.old) token.now (side_of token.now.kind)) result }
    {
        match side(token) {
            Some(side) => {
                let next = ClassWanted::InMessage(MessageState::Name(side));
                begins(&mut self.wanted, next, Counted::Message, token)
            }
            None => Err(ParseErr::Unexpected { at: token.at }),
        }
    }

    // A message is whole.
    fn add(&mut self, message: Message) -> ClassStep
        ensures { MatchResult result
            (λ reached. reached_of (class_inside_of self.new) class_of reached
            ≡ quietly (states.after_message (with_message (class_parts_of self.old) message)))
            (λ refusal. refusal ≡ ParseErr.NoMemory) }
    {
        match push(&mut self.messages, message) {
            Ok(()) => goes_on(&mut self.wanted, ClassWanted::AfterMessage),
            Err(refusal) => Err(refusal),
        }
    }

    // The class that the messages so far make. They are taken out.
    fn take_class(&mut self, alloc: Global) -> Chan
        ensures { class_of result ≡ class_of_draft (class_parts_of self.old) }
    {
        Chan {
            name: self.label.name.copy(),
            at: self.label.at,
            messages: mem::replace(&mut self.messages, Vec::new(alloc)),
        }
    }
}
