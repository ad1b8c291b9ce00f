//! Reads a file token by token.
ghost use Rattle.std.specs.Prelude.{◌≡◌, ◌≢◌, ◌++◌, ◌∷◌, [], MatchOption, MatchResult};
ghost use Rattle.anvil_tree.specs.Tree as tree;
ghost use Rattle.anvil_tree.specs.View.{item_of};
ghost use Rattle.anvil_grammar.specs.State as states;
ghost use Rattle.anvil_grammar.specs.Step.{item_step, quietly, step};
ghost use Rattle.parse_steps.specs.Seen.{IsReached, reached_of};
ghost use Rattle.anvil_parser.specs.SeenFile.{items_of, reading_of};

use anvil_grammar::{Counted, ParseErr};
use anvil_lexer::{Keyword, Token, TokenKind};
use anvil_tree::Item;
use parse_classes::{ClassState, class_step};
use parse_expressions::push;
use parse_processes::{ProcessState, process_step};
use parse_steps::{Reached, begins, goes_on};
use std::alloc::Global;
use std::mem;

/// What is wanted next in a file.
#[derive(Drop)]
pub enum State {
    Between,
    InClass(ClassState),
    InProcess(ProcessState),
    Ended,
}

/// Where the reading of a file stands, with the items that are whole.
#[derive(Drop)]
pub struct Reading {
    pub items: Vec<Item>,
    pub state: State,
}

/// What a token comes to in a file.
pub type FileStep = Result<Reached<Vec<Item>>, ParseErr>;

impl Reading {
    /// Before the first token.
    pub fn new(alloc: Global) -> Reading
        ensures { reading_of result ≡ states.start }
    {
        Reading {
            items: Vec::new(alloc),
            state: State::Between,
        }
    }

    /// Reads on in a file, which is never finished before its end.
    pub fn step(&mut self, alloc: Global, token: &Token) -> FileStep
        ensures { IsReached (reading_of self.new) items_of token.now (step (reading_of self.old) token.now) result }
    {
        match &mut self.state {
            State::Between => self.item_step(token),
            State::InClass(state) => match class_step(alloc, state, token) {
                Ok(Reached::Onward(begun)) => Ok(Reached::Onward(begun)),
                Ok(Reached::Finished(class)) => self.add(Item::Chan(class)),
                Err(refusal) => Err(refusal),
            },
            State::InProcess(state) => match process_step(alloc, state, token) {
                Ok(Reached::Onward(begun)) => Ok(Reached::Onward(begun)),
                Ok(Reached::Finished(process)) => self.add(Item::Proc(process)),
                Err(refusal) => Err(refusal),
            },
            State::Ended => Err(ParseErr::Unexpected { at: token.at }),
        }
    }

    // Between items.
    fn item_step(&mut self, token: &Token) -> FileStep
        ensures { IsReached (reading_of self.new) items_of token.now
            (item_step (items_of self.old.items) token.now token.now.kind) result }
    {
        match &token.kind {
            TokenKind::Key(Keyword::Chan) => {
                let next = State::InClass(ClassState::Name);
                begins(&mut self.state, next, Counted::Class, token)
            }
            TokenKind::Key(Keyword::Proc) => {
                let next = State::InProcess(ProcessState::Name);
                begins(&mut self.state, next, Counted::Process, token)
            }
            TokenKind::End => goes_on(&mut self.state, State::Ended),
            _ => Err(ParseErr::Unexpected { at: token.at }),
        }
    }

    // An item is whole.
    fn add(&mut self, item: Item) -> FileStep
        ensures { MatchResult result
            (λ reached. reached_of (reading_of self.new) items_of reached
            ≡ quietly (states.between (items_of self.old.items ++ item_of item ∷ [])))
            (λ refusal. refusal ≡ ParseErr.NoMemory) }
    {
        match push(&mut self.items, item) {
            Ok(()) => goes_on(&mut self.state, State::Between),
            Err(refusal) => Err(refusal),
        }
    }

    /// The items of a file that is read to its end.
    pub fn into_items(self) -> Option<Vec<Item>>
        ensures { MatchOption result
            ((file : tree.File) → reading_of self ≢ states.ended file)
            (λ items. reading_of self ≡ states.ended (items_of items)) }
    {
        let Reading { items, state } = self;
        match &state {
            State::Ended => {
                mem::drop(state);
                Some(items)
            }
            State::Between | State::InClass(_) | State::InProcess(_) => {
                mem::drop((items, state));
                None
            }
        }
    }
}
