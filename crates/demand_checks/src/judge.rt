//! A thread as the checks ask about it.
ghost use Rattle.std.specs.Prelude.{◌≡◌, ◌<◌, ◌≤◌, length, IfOk, Some, None, if◌then◌else◌};
ghost use Rattle.core_term.specs.Rules.{Order as OrderClaim};
ghost use Rattle.core_term.specs.Widths.{Widths};
ghost use Rattle.core_term.specs.View.{term_of};
ghost use Rattle.event_order.specs.Lags.{lag_of};
ghost use Rattle.event_points.specs.Nodes.{turn_number};
ghost use Rattle.order_rules.specs.Lag.{Admits};
ghost use Rattle.demand_checks.specs.Answers.{Decides};
ghost use Rattle.demand_checks.specs.Deeds.{deed_at, used};
ghost use Rattle.demand_checks.specs.Places.{point_of};
ghost use Rattle.demand_checks.specs.Reads.{AreReads};
ghost use Rattle.demand_checks.specs.Rests.{AreRests};
ghost use Rattle.demand_checks.specs.Thread.{IsReady};
ghost use Rattle.demand_checks.specs.Judge.{IsAnswer, IsJudge, IsShown, body_at, node_at};

use crate::{Deed, Pair, Place, Rest, deeds_of, reads_of, rests_of};
use core_term::{CoreProc, CoreThread};
use elaborator::{Elab, Points};
use event_order::{EvId, Lag, Order};
use lifetimes::Lasts;
use std::alloc::{AllocError, Global};

/// Whether a distance is one of those of a lag.
pub fn admits(lag: Lag, distance: i32) -> bool
    ensures { Decides result (Admits (lag_of lag) distance) }
{
    match lag {
        Lag::Never => false,
        Lag::AtLeast(most) => distance <= most,
        Lag::Vacuous => true,
    }
}

/// A thread of a process with the graph of its two turns, the order of the graph, the tables of its lives, and what its acts do.
#[derive(Drop)]
pub struct Judge<'a> {
    pub proc: &'a CoreProc,
    pub number: u32,
    pub elab: &'a Elab<'a>,
    pub order: &'a Order,
    pub lasts: &'a Lasts,
    pub deeds: Vec<Deed>,
}

impl<'a> Judge<'a> {
    /// The thread of a number.
    ///
    /// Refuses only where memory is refused.
    pub fn new(
        alloc: Global,
        proc: &'a CoreProc,
        thread: u32,
        elab: &'a Elab<'a>,
        order: &'a Order,
        lasts: &'a Lasts,
    ) -> Result<Judge<'a>, AllocError>
        requires { IsReady proc.now thread elab.now order.now lasts.now }
        ensures judge { IfOk result IsJudge }
        ensures process { IfOk result (λ judge. judge.proc.now ≡ proc.now) }
        ensures thread { IfOk result (λ judge. judge.number ≡ thread) }
    {
        let deeds = deeds_of(alloc, &proc.threads[thread as usize])?;
        Ok(Judge {
            proc,
            number: thread,
            elab,
            order,
            lasts,
            deeds,
        })
    }

    /// The thread.
    fn thread(&self) -> &CoreThread
        requires { IsJudge self.now }
        ensures { (widths : Widths) × (body_at self.now ≡ term_of widths result.now) }
    {
        &self.proc.threads[self.number as usize]
    }

    /// The uses of the thread, each with each of its atoms.
    ///
    /// Refuses only where memory is refused.
    pub fn rests(&self, alloc: Global) -> Result<Vec<Rest>, AllocError>
        requires { IsJudge self.now }
        ensures { IfOk result (λ rests. AreRests (body_at self.now) rests.items) }
    {
        let rests = rests_of(alloc, self.thread())?;
        Ok(rests)
    }

    /// The acts of the thread that read variables, each with each of them.
    ///
    /// Refuses only where memory is refused.
    pub fn reads(&self, alloc: Global) -> Result<Vec<Pair>, AllocError>
        requires { IsJudge self.now }
        ensures { IfOk result (λ reads. AreReads (body_at self.now) reads.items) }
    {
        let reads = reads_of(alloc, self.thread())?;
        Ok(reads)
    }

    /// What the act of a site does.
    pub fn deed(&self, site: u32) -> Deed
        ensures { result ≡ deed_at self.now.deeds.items site }
    {
        match self.deeds.get(site as usize) {
            Some(deed) => *deed,
            None => Deed::Other,
        }
    }

    /// The node of a place, or None where the thread has no act of its site.
    fn node(&self, place: Place) -> Option<EvId>
        requires { IsJudge self.now }
        ensures inside { place.site < length self.now.deeds.items → result ≡ Some (node_at self.now place) }
        ensures outside { length self.now.deeds.items ≤ place.site → result ≡ None }
    {
        if place.site as usize >= self.deeds.len() {
            return None;
        }
        let points = self.elab.points(turn_of(place.late), place.site);
        Some(node_in(points, place.end))
    }

    /// Whether `a + d <= b`. False where the thread has no act of a site.
    pub fn precedes(&self, a: Place, d: i32, b: Place) -> bool
        requires { IsJudge self.now }
        ensures { IsShown self.now (OrderClaim (point_of a) d (point_of b)) result }
    {
        match (self.node(a), self.node(b)) {
            (Some(from), Some(to)) => admits(self.order.lag(from, to), d),
            _ => false,
        }
    }

    /// Whether the last cycle of the life of what a `send` sends, and d cycles, come no later than b. False where the thread has no
    /// such act.
    pub fn last_precedes(&self, send: u32, d: i32, b: Place) -> bool
        requires { IsJudge self.now }
        ensures { IsAnswer self.now (λ answers. answers.last send d (point_of b)) result }
    {
        match (self.deed(send), self.node(b)) {
            (Deed::Sends(_), Some(to)) => admits(self.lasts.of(send).end_lag(to), d),
            _ => false,
        }
    }

    /// Whether an act uses its value, and d cycles, no later than b: a `send` uses it up to the end of the life.
    pub fn used_by(&self, user: u32, d: i32, b: Place) -> bool
        requires { IsJudge self.now }
        ensures { IsShown self.now (used self.now.deeds.items user d (point_of b)) result }
    {
        match self.deed(user) {
            Deed::Sends(_) => self.last_precedes(user, d, b),
            _ => self.precedes(Place::begin_of(user), d, b),
        }
    }
}

/// The number of a turn.
fn turn_of(late: bool) -> u8
    ensures { result ≡ turn_number late }
{
    if late { 2 } else { 1 }
}

/// The node of the begin or of the end.
fn node_in(points: Points, end: bool) -> EvId
    ensures { result ≡ (if end then points.end else points.begin) }
{
    if end { points.end } else { points.begin }
}
