//! The first violation of a thread.
ghost use Rattle.std.specs.Prelude.{◌≡◌, ◌<◌, length, IfOk};
ghost use Rattle.core_term.specs.AcceptedFile.{process_in};
ghost use Rattle.demand_checks.specs.Thread.{IsReady, body_of};
ghost use Rattle.timing_check.specs.OfThread.{IsFirstOfThread};

use crate::earlier::{earliest, first_of};
use bumpalo::Bump;
use core_term::{CoreProc, Violation};
use demand_checks::{Elab, Lasts, Order};
use elaborator::elaborate;
use life_tables::lasts_of;
use loan_check::loan_violations;
use send_check::send_violations;
use std::alloc::{AllocError, Global};
use use_check::use_violations;

/// The first violation of a thread, or None where it keeps all demands. The graph of the thread and the lives of what it sends lie in
/// an arena, which is given up at the end.
///
/// Refuses only where memory is refused.
pub fn first_of_thread(
    alloc: Global,
    proc: &CoreProc,
    thread: u32,
) -> Result<Option<Violation>, AllocError>
    requires { thread < length proc.now.threads.items }
    ensures { IfOk result (λ first. IsFirstOfThread (process_in proc.now) thread (body_of proc.now thread) first) }
{
    let arena = Bump::new(alloc);
    let body = &proc.threads[thread as usize];
    let elab = elaborate(alloc, &arena, body, 2)?;
    let order = Order::fill(alloc, &elab.graph)?;
    let lasts = lasts_of(alloc, &arena, proc, body, &elab, &order)?;
    first_by_rules(alloc, proc, thread, &elab, &order, &lasts)
}

/// The first violation by all rules.
fn first_by_rules(
    alloc: Global,
    proc: &CoreProc,
    thread: u32,
    elab: &Elab<'_>,
    order: &Order,
    lasts: &Lasts,
) -> Result<Option<Violation>, AllocError>
    requires { IsReady proc.now thread elab.now order.now lasts.now }
    ensures { IfOk result (λ first. IsFirstOfThread (process_in proc.now) thread (body_of proc.now thread) first) }
{
    let uses = use_violations(alloc, proc, thread, elab, order, lasts)?;
    let sends = send_violations(alloc, proc, thread, elab, order, lasts)?;
    let loans = loan_violations(alloc, proc, thread, elab, order, lasts)?;
    Ok(earliest(
        first_of(&uses),
        earliest(first_of(&sends), first_of(&loans)),
    ))
}
