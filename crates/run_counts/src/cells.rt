//! What is counted of the cells and the registers of one cycle.
ghost use Rattle.std.specs.Prelude.{◌≡◌, ◌≤◌, ◌*◌, length};
ghost use Rattle.std.specs.List.{sum_by};
ghost use Rattle.core_term.specs.Limits.{most_ports};
ghost use Rattle.run_counts.specs.Counts.{shown_value};
ghost use Rattle.run_counts.specs.Cells.{is_met, meetings};

use anvil_bits::Bits;
use core_term::{InCell, OutCell};

/// Whether there is an exchange on a port: what comes in on it and what goes out.
fn is_met(came: InCell, goes: OutCell) -> bool
    ensures { result ≡ is_met came goes }
{
    match came {
        InCell::Received { valid, .. } => match goes {
            OutCell::Received { ack } => valid && ack,
            OutCell::Sent { .. } => false,
        },
        InCell::Sent { ack } => match goes {
            OutCell::Received { .. } => false,
            OutCell::Sent { valid, .. } => valid && ack,
        },
    }
}

/// On how many ports there is an exchange.
pub(crate) fn count_met(came: &[InCell], goes: &[OutCell]) -> u64
    requires same { length came.now ≡ length goes.now }
    requires few { length came.now ≤ most_ports }
    ensures count { result ≡ meetings came.now goes.now }
    ensures few { result ≤ most_ports }
{
    let mut count: u64 = 0;
    for index in 0..came.len() {
        if is_met(came[index], goes[index]) {
            count += 1;
        }
    }
    count
}

/// The sum of what the registers show.
pub(crate) fn sum_of(numbers: &[Bits]) -> u128
    ensures sum { result ≡ sum_by shown_value numbers.now }
    ensures few { result ≤ length numbers.now * 0x1_0000_0000_0000_0000 }
{
    let mut sum: u128 = 0;
    for index in 0..numbers.len() {
        sum += u128::from(numbers[index].value());
    }
    sum
}
