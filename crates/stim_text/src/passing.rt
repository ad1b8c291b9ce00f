//! The parts of one cycle of a watch, over all ports.
ghost use Rattle.std.specs.Prelude.{◌≡◌, ℕ, IfOk, List, Some, length, slice_get};
ghost use Rattle.core_term.specs.Process.{LifeEnd};
ghost use Rattle.exchanges.specs.Next.{Bounded};
ghost use Rattle.stim_text.specs.Passing.{AreNone, all_meet, all_next, all_show, meets as meets_in, shows as shows_in};

use crate::wires::{ack_of, data_of, valid_of};
use core_term::{InCell, OutCell};
use exchanges::{Latest, Lives};
use std::alloc::{AllocError, Global};

/// Whether there is an exchange.
fn meets(cell: &InCell, out: &OutCell) -> bool
    ensures { result ≡ meets_in cell.now out.now }
{
    valid_of(cell, out) && ack_of(cell, out)
}

/// Whether a port is offered or in the life of an exchange.
fn shows(cell: &InCell, out: &OutCell, latest: &Latest) -> bool
    ensures { result ≡ shows_in cell.now out.now latest.now }
{
    valid_of(cell, out) || latest.lives
}

/// Finds the exchanges of the cycle.
fn meet_all(cells: &[InCell], outs: &[OutCell], exchanged: &mut [bool])
    requires outs { length outs.now ≡ length cells.now }
    requires exchanged { length exchanged.old ≡ length cells.now }
    ensures { exchanged.new ≡ all_meet cells.now outs.now }
{
    for index in 0..exchanged.len() {
        exchanged[index] = meets(&cells[index], &outs[index]);
    }
}

/// Finds the ports that are offered or in the life of an exchange.
fn show_all(cells: &[InCell], outs: &[OutCell], latests: &[Latest], shown: &mut [bool])
    requires outs { length outs.now ≡ length cells.now }
    requires latests { length latests.now ≡ length cells.now }
    requires shown { length shown.old ≡ length cells.now }
    ensures { shown.new ≡ all_show cells.now outs.now latests.now }
{
    for index in 0..shown.len() {
        shown[index] = shows(&cells[index], &outs[index], &latests[index]);
    }
}

/// The latest exchanges of all ports, one cycle on.
fn pass_all(
    lives: &Lives,
    exchanged: &[bool],
    cells: &[InCell],
    outs: &[OutCell],
    latests: &mut [Latest],
)
    requires exchanged { length exchanged.now ≡ length lives.now }
    requires cells { length cells.now ≡ length lives.now }
    requires outs { length outs.now ≡ length lives.now }
    requires latests { length latests.old ≡ length lives.now }
    ensures next { latests.new ≡ all_next exchanged.now exchanged.now lives.now cells.now outs.now latests.old }
    ensures bounded { (port : ℕ) (life : List LifeEnd) → slice_get lives.now port ≡ Some life → Bounded life }
{
    for index in 0..latests.len() {
        let latest = latests[index];
        let number = data_of(&cells[index], &outs[index]);
        let ends = lives.ends(index);
        latests[index] = latest.after(ends, exchanged[index], exchanged, number);
    }
}

/// The exchanges of the cycle.
pub fn meet(cells: &[InCell], outs: &[OutCell], exchanged: &mut Vec<bool>)
    requires outs { length outs.now ≡ length cells.now }
    requires exchanged { length exchanged.old.items ≡ length cells.now }
    ensures next { exchanged.new.items ≡ all_meet cells.now outs.now }
    ensures all { length exchanged.new.items ≡ length cells.now }
{
    meet_all(cells, outs, exchanged.as_mut_slice());
}

/// The ports that are offered or in the life of an exchange.
pub fn show(cells: &[InCell], outs: &[OutCell], latests: &[Latest], shown: &mut Vec<bool>)
    requires outs { length outs.now ≡ length cells.now }
    requires latests { length latests.now ≡ length cells.now }
    requires shown { length shown.old.items ≡ length cells.now }
    ensures next { shown.new.items ≡ all_show cells.now outs.now latests.now }
    ensures all { length shown.new.items ≡ length cells.now }
{
    show_all(cells, outs, latests, shown.as_mut_slice());
}

/// The latest exchanges, one cycle on.
pub fn pass(
    lives: &Lives,
    exchanged: &[bool],
    cells: &[InCell],
    outs: &[OutCell],
    latests: &mut Vec<Latest>,
)
    requires exchanged { length exchanged.now ≡ length lives.now }
    requires cells { length cells.now ≡ length lives.now }
    requires outs { length outs.now ≡ length lives.now }
    requires latests { length latests.old.items ≡ length lives.now }
    ensures next { latests.new.items ≡ all_next exchanged.now exchanged.now lives.now cells.now outs.now latests.old.items }
    ensures all { length latests.new.items ≡ length lives.now }
    ensures bounded { (port : ℕ) (life : List LifeEnd) → slice_get lives.now port ≡ Some life → Bounded life }
{
    pass_all(lives, exchanged, cells, outs, latests.as_mut_slice());
}

/// As many flags, all off.
pub fn all_off(alloc: Global, count: usize) -> Result<Vec<bool>, AllocError>
    ensures { IfOk result (λ flags. length flags.items ≡ count) }
{
    let mut flags = Vec::new(alloc);
    for _ in 0..count {
        flags.push(false)?;
    }
    Ok(flags)
}

/// The latest exchanges of as many ports, of which there was none.
pub fn no_latests(alloc: Global, count: usize) -> Result<Vec<Latest>, AllocError>
    ensures count { IfOk result (λ latests. length latests.items ≡ count) }
    ensures none { IfOk result (λ latests. AreNone latests.items) }
{
    let mut latests = Vec::new(alloc);
    for _ in 0..count {
        latests.push(Latest::none())?;
    }
    Ok(latests)
}
