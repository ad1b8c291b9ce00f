//! Keeps a reading within its limits: how many brackets are open, and how many things of each kind their present owner
//! has.
ghost use Rattle.std.specs.Prelude.{◌≡◌, ◌<◌, ◌∷◌, [], true, MatchResult};
ghost use Rattle.anvil_grammar.specs.Limited.{admitted, count_of, empty_tally, is_opening, opened, past_limit, with_one, within_limits};
ghost use Rattle.anvil_grammar.specs.Limits.{most_open, open_after};
ghost use Rattle.anvil_grammar.specs.Begun.{most};
ghost use Rattle.parse_steps.specs.Seen.{begin_of, begun_of};
ghost use Rattle.parse_steps.specs.SeenCounts.{tally_of};

use crate::step::{Begin, Begun};
use anvil_grammar::{Counted, ParseErr};
use anvil_lexer::{Mark, Token, TokenKind};

/// The most brackets that may be open at once.
pub const MOST_OPEN: u32 = 64;

/// The open brackets, and the things of each kind that their present owner has so far.
#[derive(Clone, Copy)]
pub struct Counts {
    pub open_brackets: u32,
    pub classes: u32,
    pub messages: u32,
    pub processes: u32,
    pub endpoints: u32,
    pub registers: u32,
    pub threads: u32,
    pub acts: u32,
    pub nodes: u32,
}

/// The most things of a kind that one owner may have.
pub fn most(kind: Counted) -> u32
    ensures { result ≡ most kind }
{
    match kind {
        Counted::Expr => 256,
        Counted::Act => 512,
        Counted::Thread => 16,
        _ => 64,
    }
}

// How a token changes the number of open brackets.
fn open_after(depth: u32, kind: &TokenKind) -> u32
    requires { is_opening kind.now ≡ true → depth < most_open }
    ensures { result ≡ open_after depth kind.now }
{
    match kind {
        TokenKind::Mark(Mark::OpenBrace | Mark::OpenParen | Mark::OpenBracket) => depth + 1,
        TokenKind::Mark(Mark::CloseBrace | Mark::CloseParen | Mark::CloseBracket) =>
            depth.saturating_sub(1),
        _ => depth,
    }
}

// Whether the token opens a bracket.
fn is_opening(kind: &TokenKind) -> bool
    ensures { result ≡ is_opening kind.now }
{
    matches!(
        kind,
        TokenKind::Mark(Mark::OpenBrace | Mark::OpenParen | Mark::OpenBracket)
    )
}

impl Counts {
    /// Of no token.
    pub fn none() -> Counts
        ensures { tally_of result ≡ empty_tally }
    {
        Counts {
            open_brackets: 0,
            classes: 0,
            messages: 0,
            processes: 0,
            endpoints: 0,
            registers: 0,
            threads: 0,
            acts: 0,
            nodes: 0,
        }
    }

    // How many things of a kind their present owner has.
    fn of(&self, kind: Counted) -> u32
        ensures { result ≡ count_of kind (tally_of self.now) }
    {
        match kind {
            Counted::Class => self.classes,
            Counted::Message => self.messages,
            Counted::Process => self.processes,
            Counted::Endpoint => self.endpoints,
            Counted::Register => self.registers,
            Counted::Thread => self.threads,
            Counted::Act => self.acts,
            Counted::Expr => self.nodes,
        }
    }

    // With one thing more of a kind, of which there may be one more.
    fn with_one(self, kind: Counted) -> Counts
        requires { count_of kind (tally_of self) < most kind }
        ensures { tally_of result ≡ with_one kind (tally_of self) }
    {
        match kind {
            Counted::Class => Counts {
                classes: self.classes + 1,
                messages: 0,
                ..self
            },
            Counted::Message => Counts {
                messages: self.messages + 1,
                ..self
            },
            Counted::Process => Counts {
                processes: self.processes + 1,
                endpoints: 0,
                registers: 0,
                threads: 0,
                ..self
            },
            Counted::Endpoint => Counts {
                endpoints: self.endpoints + 1,
                ..self
            },
            Counted::Register => Counts {
                registers: self.registers + 1,
                ..self
            },
            Counted::Thread => Counts {
                threads: self.threads + 1,
                acts: 0,
                ..self
            },
            Counted::Act => Counts {
                acts: self.acts + 1,
                nodes: 0,
                ..self
            },
            Counted::Expr => Counts {
                nodes: self.nodes + 1,
                ..self
            },
        }
    }

    // Counts a thing that begins.
    fn with(self, begin: Begin) -> Result<Counts, ParseErr>
        ensures { MatchResult result
            (λ counts. admitted (tally_of self) (begin_of begin ∷ []) ≡ within_limits (tally_of counts))
            (λ refusal. admitted (tally_of self) (begin_of begin ∷ []) ≡ past_limit refusal) }
    {
        if self.of(begin.kind) >= most(begin.kind) {
            return Err(ParseErr::TooMany {
                kind: begin.kind,
                at: begin.at,
            });
        }
        Ok(self.with_one(begin.kind))
    }

    /// Counts the things that begin with a token.
    pub fn with_begun(self, begun: Begun) -> Result<Counts, ParseErr>
        ensures { MatchResult result
            (λ counts. admitted (tally_of self) (begun_of begun) ≡ within_limits (tally_of counts))
            (λ refusal. admitted (tally_of self) (begun_of begun) ≡ past_limit refusal) }
    {
        match begun {
            Begun::Nothing => Ok(self),
            Begun::One(begin) => self.with(begin),
            Begun::Two(begin, other) => match self.with(begin) {
                Ok(counts) => counts.with(other),
                Err(refusal) => Err(refusal),
            },
        }
    }

    /// Counts a token that may open or close a bracket.
    pub fn with_token(self, token: &Token) -> Result<Counts, ParseErr>
        ensures { MatchResult result
            (λ counts. opened (tally_of self) token.now ≡ within_limits (tally_of counts))
            (λ refusal. opened (tally_of self) token.now ≡ past_limit refusal) }
    {
        if is_opening(&token.kind) && self.open_brackets >= MOST_OPEN {
            return Err(ParseErr::TooDeep { at: token.at });
        }
        Ok(Counts {
            open_brackets: open_after(self.open_brackets, &token.kind),
            ..self
        })
    }
}
