//! Terms and their acts: the core term of a term in a scope, with the width of its value, or the first check of it that fails.
ghost use Rattle.std.specs.Prelude.{◌≡◌, ◌+◌, ◌≤◌, None, Some, MatchResult};
ghost use Rattle.anvil_tree.specs.View as tree;
ghost use Rattle.anvil_tree.specs.Few.{act_count, act_count_in, most_acts};
ghost use Rattle.first_check.specs.Check.{first_refusal};
ghost use Rattle.core_file.specs.TermChecks.{side_checks};
ghost use Rattle.core_file.specs.declared.error.NameErr.TheVariants.{NoMemory};
ghost use Rattle.expr_check.specs.Known.{scope_of};
ghost use Rattle.term_check.specs.Taken.{taken_of};
ghost use Rattle.term_check.specs.Words.{word_of};
ghost use Rattle.term_check.specs.Read.{TermRead, ActRead, TermFails, ActFails};

use crate::acts::{is_count, read_port, read_send, read_set};
use crate::pure::read_pure;
use crate::taken::Taken;
use anvil_tree::{Act, ActKind, Term};
use core_file::NameErr;
use core_term::{CoreAct, CoreKind, CoreTerm};
use expr_check::{Made, Scope, boxed, differ, read_expr};
use std::alloc::Global;

/// A term that was read, the width of its value, which is 0 where it has none, and the first site behind it.
#[derive(Drop)]
pub struct ReadTerm {
    pub term: CoreTerm,
    pub width: u8,
    pub next: u32,
}

// The same of a part of a term, in a box of its own.
#[derive(Drop)]
struct ReadPart {
    term: Box<CoreTerm>,
    width: u8,
    next: u32,
}

/// What an act does that was read, the width of its value, and the first site behind it.
#[derive(Drop)]
pub struct ReadKind {
    pub kind: CoreKind,
    pub width: u8,
    pub next: u32,
}

// The width of the value of an `if` whose sides have values of these widths. It has none where a side has none.
fn word_of(at: u32, left: u8, right: u8) -> Result<Option<u8>, NameErr>
    ensures { MatchResult result
        (λ word. (first_refusal (side_checks at left right) ≡ None) × (word ≡ word_of left right))
        (λ fault. first_refusal (side_checks at left right) ≡ Some fault) }
{
    if left == 0 || right == 0 {
        Ok(None)
    } else if left == right {
        Ok(Some(left))
    } else {
        Err(differ(at, left, right))
    }
}

/// The core term of a term whose acts have the sites from `low` on.
#[cycle(read)]
pub fn read_term(
    alloc: Global,
    term: &Term,
    scope: &Scope<'_>,
    taken: &Taken,
    low: u32,
) -> Result<ReadTerm, NameErr>
    requires { low + act_count (tree.term_of term.now) ≤ most_acts }
    ensures { MatchResult result
        (λ read. TermRead (scope_of scope.now) (taken_of taken.now) low (tree.term_of term.now) read.term read.width read.next)
        (λ fault. TermFails (scope_of scope.now) (taken_of taken.now) low (tree.term_of term.now) fault) }
{
    match term {
        Term::One(act) => match read_kind(alloc, act, scope, taken, low) {
            Ok(read) => Ok(ReadTerm {
                term: CoreTerm::One(CoreAct {
                    site: low,
                    at: act.at,
                    kind: read.kind,
                }),
                width: read.width,
                next: read.next,
            }),
            Err(fault) => Err(fault),
        },
        Term::Then(name, act, rest) => {
            let read = read_kind(alloc, act, scope, taken, low)?;
            let made = Made::Act {
                name,
                site: low,
                width: read.width,
                outer: scope.made,
            };
            let inner = Scope {
                known: scope.known,
                made: &made,
            };
            match read_part(alloc, rest, &inner, taken, read.next) {
                Ok(behind) => Ok(ReadTerm {
                    term: CoreTerm::Then(
                        CoreAct {
                            site: low,
                            at: act.at,
                            kind: read.kind,
                        },
                        behind.term,
                    ),
                    width: behind.width,
                    next: behind.next,
                }),
                Err(fault) => {
                    drop(read);
                    Err(fault)
                }
            }
        }
        Term::Both(name, act, rest) => {
            let read = read_kind(alloc, act, scope, taken, low)?;
            let made = Made::Act {
                name,
                site: low,
                width: read.width,
                outer: scope.made,
            };
            let inner = Scope {
                known: scope.known,
                made: &made,
            };
            match read_part(alloc, rest, &inner, taken, read.next) {
                Ok(behind) => Ok(ReadTerm {
                    term: CoreTerm::Both(
                        CoreAct {
                            site: low,
                            at: act.at,
                            kind: read.kind,
                        },
                        behind.term,
                    ),
                    width: behind.width,
                    next: behind.next,
                }),
                Err(fault) => {
                    drop(read);
                    Err(fault)
                }
            }
        }
    }
}

// The core term of a part, which stands in a box of its own.
#[cycle(read)]
fn read_part(
    alloc: Global,
    term: &Term,
    scope: &Scope<'_>,
    taken: &Taken,
    low: u32,
) -> Result<ReadPart, NameErr>
    requires { low + act_count (tree.term_of term.now) ≤ most_acts }
    ensures { MatchResult result
        (λ read. TermRead (scope_of scope.now) (taken_of taken.now) low (tree.term_of term.now) read.term.value read.width read.next)
        (λ fault. TermFails (scope_of scope.now) (taken_of taken.now) low (tree.term_of term.now) fault) }
{
    let read = read_term(alloc, term, scope, taken, low)?;
    let term = boxed(alloc, read.term)?;
    Ok(ReadPart {
        term,
        width: read.width,
        next: read.next,
    })
}

/// What an act of the site `low` does.
#[cycle(read)]
fn read_kind(
    alloc: Global,
    act: &Act,
    scope: &Scope<'_>,
    taken: &Taken,
    low: u32,
) -> Result<ReadKind, NameErr>
    requires { low + act_count_in (tree.act_of act.now) ≤ most_acts }
    ensures { MatchResult result
        (λ read. ActRead (scope_of scope.now) (taken_of taken.now) low (tree.act_of act.now) act.now.at read.kind read.width read.next)
        (λ fault. ActFails (scope_of scope.now) (taken_of taken.now) low (tree.act_of act.now) fault) }
{
    let at = act.at;
    match &act.kind {
        ActKind::Cycle { count, count_at } => {
            if is_count(*count) {
                Ok(ReadKind {
                    kind: CoreKind::Cycle(*count as u16),
                    width: 0,
                    next: low + 1,
                })
            } else {
                Err(NameErr::BadCount { at: *count_at })
            }
        }
        ActKind::Set {
            register,
            register_at,
            value,
        } => {
            let (reg, value) = read_set(alloc, at, register, *register_at, value, scope, taken)?;
            Ok(ReadKind {
                kind: CoreKind::Set { reg, value },
                width: 0,
                next: low + 1,
            })
        }
        ActKind::Send {
            endpoint,
            endpoint_at,
            message,
            message_at,
            value,
        } => {
            let (port, value) = read_send(
                alloc,
                at,
                endpoint,
                *endpoint_at,
                message,
                *message_at,
                value,
                scope,
                taken,
            )?;
            Ok(ReadKind {
                kind: CoreKind::Send { port, value },
                width: 0,
                next: low + 1,
            })
        }
        ActKind::Recv {
            endpoint,
            endpoint_at,
            message,
            message_at,
        } => {
            match read_port(
                at,
                endpoint,
                *endpoint_at,
                message,
                *message_at,
                true,
                scope,
                taken,
            ) {
                Ok(port) => Ok(ReadKind {
                    kind: CoreKind::Recv { port: port.number },
                    width: port.width,
                    next: low + 1,
                }),
                Err(fault) => Err(fault),
            }
        }
        ActKind::If { cond, yes, no } => {
            let (cond, width) = read_expr(alloc, cond, scope)?;
            if width != 1 {
                drop(cond);
                return Err(differ(at, 1, width));
            }
            match read_part(alloc, yes, scope, taken, low + 1) {
                Ok(first) => match no {
                    None => Ok(ReadKind {
                        kind: CoreKind::If {
                            cond,
                            yes: first.term,
                            no: None,
                            word: None,
                        },
                        width: 0,
                        next: first.next,
                    }),
                    Some(no) => match read_part(alloc, no, scope, taken, first.next) {
                        Ok(second) => match word_of(at, first.width, second.width) {
                            Ok(word) => Ok(ReadKind {
                                kind: CoreKind::If {
                                    cond,
                                    yes: first.term,
                                    no: Some(second.term),
                                    word,
                                },
                                width: word.unwrap_or(0),
                                next: second.next,
                            }),
                            Err(fault) => {
                                drop((cond, first, second));
                                Err(fault)
                            }
                        },
                        Err(fault) => {
                            drop((cond, first));
                            Err(fault)
                        }
                    },
                },
                Err(fault) => {
                    drop(cond);
                    Err(fault)
                }
            }
        }
        ActKind::Block(body) => match read_part(alloc, body, scope, taken, low + 1) {
            Ok(read) => Ok(ReadKind {
                kind: CoreKind::Block(read.term),
                width: read.width,
                next: read.next,
            }),
            Err(fault) => Err(fault),
        },
        ActKind::Pure(expr) => match read_pure(alloc, expr, scope, low) {
            Ok((kind, width)) => Ok(ReadKind {
                kind,
                width,
                next: low + 1,
            }),
            Err(fault) => Err(fault),
        },
    }
}
