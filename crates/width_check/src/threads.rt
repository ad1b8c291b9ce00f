//! The threads of a process, each after what the earlier ones took, or the first check of them that fails.
ghost use Rattle.std.specs.Prelude.{MatchResult, map};
ghost use Rattle.std.specs.List.{AllByRecursion};
ghost use Rattle.anvil_tree.specs.Few.{ThreadIsFew};
ghost use Rattle.anvil_tree.specs.Order.{NeverFall, acts_of_term};
ghost use Rattle.anvil_tree.specs.View.{term_of};
ghost use Rattle.expr_check.specs.declared.made.Made.{Nothing};
ghost use Rattle.expr_check.specs.Known.{scope_with};
ghost use Rattle.term_check.specs.Taken.{taken_of};
ghost use Rattle.width_check.specs.ReadThreads.{ThreadRead, ThreadFails, ThreadsRead, ThreadsFail};

use anvil_tree::Term;
use core_file::NameErr;
use core_term::CoreThread;
use expr_check::{Known, Made, Scope, push};
use indexmap::IndexSet;
use std::alloc::Global;
use term_check::{Taken, check_tail, read_term, take_term};

// A thread after those that took so much, and what they take with it.
fn read_thread(
    alloc: Global,
    known: &Known,
    thread: &Term,
    taken: &mut Taken,
) -> Result<CoreThread, NameErr>
    requires few { ThreadIsFew (term_of thread.now) }
    requires in_order { NeverFall (acts_of_term (term_of thread.now)) }
    ensures { MatchResult result
        (λ read. ThreadRead (scope_with known.now Nothing) (taken_of taken.old) (term_of thread.now) read (taken_of taken.new))
        (λ fault. ThreadFails (scope_with known.now Nothing) (taken_of taken.old) (term_of thread.now) fault) }
{
    let made = Made::Nothing;
    let scope = Scope { known, made: &made };
    match read_term(alloc, thread, &scope, taken, 0) {
        Err(fault) => Err(fault),
        Ok(read) => match check_tail(thread) {
            Err(fault) => {
                drop(read);
                Err(fault)
            }
            Ok(()) => match CoreThread::new(alloc, read.term) {
                Err(_) => Err(NameErr::NoMemory),
                Ok(body) => match take_term(thread, taken) {
                    Err(_) => {
                        drop(body);
                        Err(NameErr::NoMemory)
                    }
                    Ok(()) => Ok(body),
                },
            },
        },
    }
}

/// The threads in order.
pub fn read_threads(
    alloc: Global,
    known: &Known,
    threads: &[Term],
) -> Result<Vec<CoreThread>, NameErr>
    requires few { AllByRecursion ThreadIsFew (map term_of threads.now) }
    requires in_order { AllByRecursion (λ term. NeverFall (acts_of_term term)) (map term_of threads.now) }
    ensures { MatchResult result
        (λ read. ThreadsRead (scope_with known.now Nothing) (map term_of threads.now) read.items)
        (λ fault. ThreadsFail (scope_with known.now Nothing) (map term_of threads.now) fault) }
{
    let mut taken = Taken {
        registers: IndexSet::new(alloc),
        endpoints: IndexSet::new(alloc),
    };
    let mut read = Vec::new(alloc);
    for thread in threads {
        match read_thread(alloc, known, thread, &mut taken) {
            Ok(body) => match push(&mut read, body) {
                Ok(()) => {}
                Err(_) => {
                    drop((taken, read));
                    return Err(NameErr::NoMemory);
                }
            },
            Err(fault) => {
                drop((taken, read));
                return Err(fault);
            }
        }
    }
    drop(taken);
    Ok(read)
}
