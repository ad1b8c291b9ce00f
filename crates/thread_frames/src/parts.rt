//! Acts and terms that are made of their parts.
ghost use Rattle.std.specs.Prelude.{◌≡◌, MatchResult};
ghost use Rattle.anvil_tree.specs.Tree as tree;
ghost use Rattle.anvil_tree.specs.View.{act_of, expr_of, term_of};
ghost use Rattle.thread_frames.specs.SeenFrames.{linked};

use crate::stack::{Joint, Link};
use anvil_grammar::ParseErr;
use anvil_tree::{Act, ActKind, Expr, Term};
use parse_expressions::{boxed, boxed_pair, refused};
use parse_steps::Label;
use std::alloc::Global;

/// An act with its joint and the term behind it.
pub fn linked(alloc: Global, link: Link, term: Term) -> Result<Term, ParseErr>
    ensures { MatchResult result
        (λ whole. term_of whole ≡ linked link.joint link.bound (act_of link.act) (term_of term))
        (λ refusal. refusal ≡ ParseErr.NoMemory) }
{
    match boxed(alloc, term) {
        Ok(term) => match link.joint {
            Joint::Follow => Ok(Term::Then(link.bound, link.act, term)),
            Joint::Beside => Ok(Term::Both(link.bound, link.act, term)),
        },
        Err(refusal) => refused(link, refusal),
    }
}

/// `if c { t }`
pub fn when(alloc: Global, at: u32, cond: Expr, first: Term) -> Result<Act, ParseErr>
    ensures { MatchResult result
        (λ act. act_of act ≡ tree.when at (expr_of cond) (term_of first))
        (λ refusal. refusal ≡ ParseErr.NoMemory) }
{
    match boxed(alloc, first) {
        Ok(yes) => Ok(Act {
            at,
            kind: ActKind::If {
                cond,
                yes,
                no: None,
            },
        }),
        Err(refusal) => refused(cond, refusal),
    }
}

/// `if c { t } else { t }`
pub fn either(
    alloc: Global,
    at: u32,
    cond: Expr,
    first: Term,
    second: Term,
) -> Result<Act, ParseErr>
    ensures { MatchResult result
        (λ act. act_of act ≡ tree.either at (expr_of cond) (term_of first) (term_of second))
        (λ refusal. refusal ≡ ParseErr.NoMemory) }
{
    match boxed_pair(alloc, first, second) {
        Ok((yes, no)) => Ok(Act {
            at,
            kind: ActKind::If {
                cond,
                yes,
                no: Some(no),
            },
        }),
        Err(refusal) => refused(cond, refusal),
    }
}

/// `{ t }`
pub fn block(alloc: Global, at: u32, term: Term) -> Result<Act, ParseErr>
    ensures { MatchResult result
        (λ act. act_of act ≡ tree.block at (term_of term))
        (λ refusal. refusal ≡ ParseErr.NoMemory) }
{
    match boxed(alloc, term) {
        Ok(term) => Ok(Act {
            at,
            kind: ActKind::Block(term),
        }),
        Err(refusal) => Err(refusal),
    }
}

/// `set r := e`
pub fn set(at: u32, register: Label, value: Expr) -> Act
    ensures { act_of result ≡ tree.set at register.name register.at (expr_of value) }
{
    let Label {
        name: register,
        at: register_at,
    } = register;
    Act {
        at,
        kind: ActKind::Set {
            register,
            register_at,
            value,
        },
    }
}

/// `send e.m(v)`
pub fn send(at: u32, endpoint: Label, message: Label, value: Expr) -> Act
    ensures { act_of result ≡ tree.send at endpoint.name endpoint.at message.name message.at (expr_of value) }
{
    let Label {
        name: endpoint,
        at: endpoint_at,
    } = endpoint;
    let Label {
        name: message,
        at: message_at,
    } = message;
    Act {
        at,
        kind: ActKind::Send {
            endpoint,
            endpoint_at,
            message,
            message_at,
            value,
        },
    }
}

/// The act `recv e.m`.
pub fn receive(at: u32, endpoint: Label, message: Label) -> Act
    ensures { act_of result ≡ tree.receive at endpoint.name endpoint.at message.name message.at }
{
    let Label {
        name: endpoint,
        at: endpoint_at,
    } = endpoint;
    let Label {
        name: message,
        at: message_at,
    } = message;
    Act {
        at,
        kind: ActKind::Recv {
            endpoint,
            endpoint_at,
            message,
            message_at,
        },
    }
}
