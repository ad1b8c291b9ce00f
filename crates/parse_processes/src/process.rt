//! Reads a process token by token, from behind `proc` to its `}`.
ghost use Rattle.std.specs.Prelude.{◌≡◌, MatchResult};
ghost use Rattle.anvil_tree.specs.View.{process_of, term_of};
ghost use Rattle.anvil_grammar.specs.State as states;
ghost use Rattle.anvil_grammar.specs.Step.{begins_endpoint, process_of_draft, process_step, quietly, with_endpoint, with_register, with_thread};
ghost use Rattle.parse_steps.specs.Seen.{IsReached, reached_of};
ghost use Rattle.parse_processes.specs.SeenProcess.{process_inside_of, process_parts_of, process_state_of};

use crate::endpoint::{EndpointDraft, EndpointWanted};
use crate::register::{RegisterState, register_step};
use anvil_grammar::{Counted, ParseErr};
use anvil_lexer::{Keyword, Mark, Token, TokenKind};
use anvil_tree::{Endpoint, Proc, Register, Term};
use parse_expressions::push;
use parse_steps::{Label, Reached, await_mark, begins, goes_on, word};
use parse_threads::{Thread, thread_step};
use std::alloc::Global;
use std::mem;

/// What is wanted next in a process, behind its `(`.
#[derive(Drop)]
pub enum ProcessWanted {
    FirstEndpoint,
    NextEndpoint,
    InEndpoint(EndpointDraft),
    AfterEndpoint,
    BodyOpening,
    Registers,
    InRegister(RegisterState),
    Threads,
    ThreadOpening,
    InThread(Thread),
}

/// A process up to some token behind its `(`, with the endpoints, registers and threads that are whole.
#[derive(Drop)]
pub struct ProcessDraft {
    pub label: Label,
    pub endpoints: Vec<Endpoint>,
    pub registers: Vec<Register>,
    pub threads: Vec<Term>,
    pub wanted: ProcessWanted,
}

/// What is wanted next in a process, behind `proc`.
#[derive(Drop)]
pub enum ProcessState {
    Name,
    Opening(Label),
    Inside(ProcessDraft),
}

/// What a token comes to in a process.
pub type ProcessStep = Result<Reached<Proc>, ParseErr>;

/// Reads on in a process.
pub fn process_step(alloc: Global, state: &mut ProcessState, token: &Token) -> ProcessStep
    ensures { IsReached (process_state_of state.new) process_of token.now
        (process_step (process_state_of state.old) token.now) result }
{
    match state {
        ProcessState::Name => match word(token) {
            Ok(label) => goes_on(state, ProcessState::Opening(label)),
            Err(refusal) => Err(refusal),
        },
        ProcessState::Opening(label) => {
            let draft = ProcessDraft {
                label: label.copy(),
                endpoints: Vec::new(alloc),
                registers: Vec::new(alloc),
                threads: Vec::new(alloc),
                wanted: ProcessWanted::FirstEndpoint,
            };
            await_mark(token, Mark::OpenParen, state, ProcessState::Inside(draft))
        }
        ProcessState::Inside(draft) => draft.step(alloc, token),
    }
}

impl ProcessDraft {
    // Behind the `(`.
    fn step(&mut self, alloc: Global, token: &Token) -> ProcessStep
        ensures { IsReached (process_inside_of self.new) process_of token.now
            (process_step (process_inside_of self.old) token.now) result }
    {
        match &mut self.wanted {
            ProcessWanted::FirstEndpoint => self.first_endpoint_step(token),
            ProcessWanted::NextEndpoint => self.next_endpoint_step(token),
            ProcessWanted::InEndpoint(draft) => match draft.step(token) {
                Ok(Reached::Onward(begun)) => Ok(Reached::Onward(begun)),
                Ok(Reached::Finished(endpoint)) => self.add_endpoint(endpoint),
                Err(refusal) => Err(refusal),
            },
            ProcessWanted::AfterEndpoint => self.after_endpoint_step(token),
            ProcessWanted::BodyOpening => {
                let next = ProcessWanted::Registers;
                await_mark(token, Mark::OpenBrace, &mut self.wanted, next)
            }
            ProcessWanted::Registers => self.registers_step(alloc, token),
            ProcessWanted::InRegister(state) => match register_step(state, token) {
                Ok(Reached::Onward(begun)) => Ok(Reached::Onward(begun)),
                Ok(Reached::Finished(register)) => self.add_register(register),
                Err(refusal) => Err(refusal),
            },
            ProcessWanted::Threads => self.threads_step(alloc, token),
            ProcessWanted::ThreadOpening => {
                let next = ProcessWanted::InThread(Thread::new(alloc));
                await_mark(token, Mark::OpenBrace, &mut self.wanted, next)
            }
            ProcessWanted::InThread(thread) => match thread_step(alloc, thread, token) {
                Ok(Reached::Onward(begun)) => Ok(Reached::Onward(begun)),
                Ok(Reached::Finished(term)) => self.add_thread(term),
                Err(refusal) => Err(refusal),
            },
        }
    }

    // An endpoint begins with its name.
    fn begin_endpoint(&mut self, label: Label, token: &Token) -> ProcessStep
        requires { label.at ≡ token.now.at }
        ensures { MatchResult result
            (λ reached. reached_of (process_inside_of self.new) process_of reached
            ≡ begins_endpoint (process_parts_of self.old) token.now label.name)
            (λ _. ⊥) }
    {
        let draft = EndpointDraft {
            label,
            wanted: EndpointWanted::Colon,
        };
        let next = ProcessWanted::InEndpoint(draft);
        begins(&mut self.wanted, next, Counted::Endpoint, token)
    }

    // Behind `(`: an endpoint, or none.
    fn first_endpoint_step(&mut self, token: &Token) -> ProcessStep
        ensures { IsReached (process_inside_of self.new) process_of token.now
            (process_step (states.first_endpoint (process_parts_of self.old)) token.now) result }
    {
        match &token.kind {
            TokenKind::Mark(Mark::CloseParen) => goes_on(
                &mut self.wanted,
                ProcessWanted::BodyOpening,
            ),
            _ => self.next_endpoint_step(token),
        }
    }

    // Behind a comma: an endpoint.
    fn next_endpoint_step(&mut self, token: &Token) -> ProcessStep
        ensures { IsReached (process_inside_of self.new) process_of token.now
            (process_step (states.next_endpoint (process_parts_of self.old)) token.now) result }
    {
        match word(token) {
            Ok(label) => self.begin_endpoint(label, token),
            Err(refusal) => Err(refusal),
        }
    }

    // An endpoint is whole.
    fn add_endpoint(&mut self, endpoint: Endpoint) -> ProcessStep
        ensures { MatchResult result
            (λ reached. reached_of (process_inside_of self.new) process_of reached
            ≡ quietly (states.after_endpoint (with_endpoint (process_parts_of self.old) endpoint)))
            (λ refusal. refusal ≡ ParseErr.NoMemory) }
    {
        match push(&mut self.endpoints, endpoint) {
            Ok(()) => goes_on(&mut self.wanted, ProcessWanted::AfterEndpoint),
            Err(refusal) => Err(refusal),
        }
    }

    // Behind an endpoint.
    fn after_endpoint_step(&mut self, token: &Token) -> ProcessStep
        ensures { IsReached (process_inside_of self.new) process_of token.now
            (process_step (states.after_endpoint (process_parts_of self.old)) token.now) result }
    {
        match &token.kind {
            TokenKind::Mark(Mark::Comma) => goes_on(&mut self.wanted, ProcessWanted::NextEndpoint),
            TokenKind::Mark(Mark::CloseParen) => goes_on(
                &mut self.wanted,
                ProcessWanted::BodyOpening,
            ),
            _ => Err(ParseErr::Unexpected { at: token.at }),
        }
    }

    // Where a register or a thread may begin.
    fn registers_step(&mut self, alloc: Global, token: &Token) -> ProcessStep
        ensures { IsReached (process_inside_of self.new) process_of token.now
            (process_step (states.registers_wanted (process_parts_of self.old)) token.now) result }
    {
        match &token.kind {
            TokenKind::Key(Keyword::Reg) => {
                let next = ProcessWanted::InRegister(RegisterState::Name);
                begins(&mut self.wanted, next, Counted::Register, token)
            }
            _ => self.threads_step(alloc, token),
        }
    }

    // A register is whole.
    fn add_register(&mut self, register: Register) -> ProcessStep
        ensures { MatchResult result
            (λ reached. reached_of (process_inside_of self.new) process_of reached
            ≡ quietly (states.registers_wanted (with_register (process_parts_of self.old) register)))
            (λ refusal. refusal ≡ ParseErr.NoMemory) }
    {
        match push(&mut self.registers, register) {
            Ok(()) => goes_on(&mut self.wanted, ProcessWanted::Registers),
            Err(refusal) => Err(refusal),
        }
    }

    // Where a thread may begin, and no register.
    fn threads_step(&mut self, alloc: Global, token: &Token) -> ProcessStep
        ensures { IsReached (process_inside_of self.new) process_of token.now
            (process_step (states.threads_wanted (process_parts_of self.old)) token.now) result }
    {
        match &token.kind {
            TokenKind::Key(Keyword::Loop) => {
                let next = ProcessWanted::ThreadOpening;
                begins(&mut self.wanted, next, Counted::Thread, token)
            }
            TokenKind::Mark(Mark::CloseBrace) => Ok(Reached::Finished(self.take_process(alloc))),
            _ => Err(ParseErr::Unexpected { at: token.at }),
        }
    }

    // A thread is whole.
    fn add_thread(&mut self, thread: Term) -> ProcessStep
        ensures { MatchResult result
            (λ reached. reached_of (process_inside_of self.new) process_of reached
            ≡ quietly (states.threads_wanted (with_thread (process_parts_of self.old) (term_of thread))))
            (λ refusal. refusal ≡ ParseErr.NoMemory) }
    {
        match push(&mut self.threads, thread) {
            Ok(()) => goes_on(&mut self.wanted, ProcessWanted::Threads),
            Err(refusal) => Err(refusal),
        }
    }

    // The process that the parts so far make. They are taken out.
    fn take_process(&mut self, alloc: Global) -> Proc
        ensures { process_of result ≡ process_of_draft (process_parts_of self.old) }
    {
        Proc {
            name: self.label.name.copy(),
            at: self.label.at,
            endpoints: mem::replace(&mut self.endpoints, Vec::new(alloc)),
            registers: mem::replace(&mut self.registers, Vec::new(alloc)),
            threads: mem::replace(&mut self.threads, Vec::new(alloc)),
        }
    }
}
