//! A sink over memory, of a fixed size, whose puts fail as its maker asked.
ghost use Rattle.std.specs.Prelude.{◌≡◌, ◌≤◌, ◌++◌, [], IfOk, OnOk, OnErr, IsErr, IsTrue, ◌↔◌, Some};
ghost use Rattle.anvil_io.specs.Causes.{Rose, AppendsPrefix};
ghost use Rattle.anvil_io.specs.Memory.{is_failing, put_fails, after_put};

use crate::{Sink, SinkFault};
use std::alloc::{AllocError, Global};
use std::marker::Model;

/// A sink over memory. Its puts are numbered from 0, and those whose numbers are in a list fail.
///
/// A put fails also where the piece is longer than the room that is left. A put that fails by its number takes the first
/// half of the piece, its length rounded down; one that fails for want of room takes the front part that there is room for.
#[derive(Drop)]
pub struct MemSink {
    bytes: Vec<u8>,
    room: usize,
    failing: Vec<u32>,
    puts: u64,
    faults: u64,
}

impl Model for MemSink {
    ghost use Rattle.std.specs.Prelude.{◌≤◌, vec_capacity, vec_len};
    ghost use Rattle.anvil_io.specs.Memory.{SinkState};

    ghost Value = { SinkState };

    ghost view = { λ s. record { bytes = s.bytes.items; room = s.room; failing = s.failing.items; puts = s.puts; faults = s.faults } };

    ghost invariant = { λ s. (vec_len s.bytes ≤ s.room) × (s.room ≤ vec_capacity s.bytes) };
}

impl MemSink {
    /// An empty sink with the memory for `room` bytes, so that its puts take none. Refused only for want of memory.
    pub fn new(alloc: Global, room: u32, failing: Vec<u32>) -> Result<MemSink, AllocError>
        ensures { IfOk result (λ s. s ≡ record { bytes = []; room = room; failing = failing.items; puts = 0; faults = 0 }) }
    {
        let room = room as usize;
        let bytes = Vec::with_capacity(alloc, room)?;
        Ok(MemSink {
            bytes,
            room,
            failing,
            puts: 0,
            faults: 0,
        })
    }

    /// The bytes that it holds.
    pub fn bytes(&self) -> &[u8]
        ensures { result.now ≡ self.now.bytes }
    {
        &self.bytes
    }
}

impl Sink for MemSink {
    ghost held = { λ s. Some s.bytes };

    ghost faults = { λ s. s.faults };

    fn put(&mut self, bytes: &[u8]) -> Result<(), SinkFault>
        ensures appends { OnOk result (self.new.bytes ≡ self.old.bytes ++ bytes.now) }
        ensures prefix { OnErr result (AppendsPrefix (Some self.old.bytes) (Some self.new.bytes) bytes.now) }
        ensures cause { OnErr result (Rose self.old.faults self.new.faults) }
        ensures fine { OnOk result (self.new.faults ≡ self.old.faults) }
        ensures later { self.old.faults ≤ self.new.faults }
        ensures exactly { IsErr result ↔ IsTrue (put_fails self.old bytes.now) }
        ensures state { self.new ≡ after_put self.old bytes.now }
    {
        let number = self.puts;
        self.puts = number.saturating_add(1);
        let left = self.room - self.bytes.len();
        let fails = is_among(number, &self.failing);
        let wanted = if fails { bytes.len() / 2 } else { bytes.len() };
        let takes = left.min(wanted);
        let _ = self.bytes.extend_from_slice(&bytes[..takes]);
        if fails || left < bytes.len() {
            self.faults = self.faults.saturating_add(1);
            Err(SinkFault)
        } else {
            Ok(())
        }
    }
}

// Whether the number of a call is among those that fail.
pub(crate) fn is_among(number: u64, failing: &[u32]) -> bool
    ensures { result ≡ is_failing failing.now number }
{
    failing.iter().any(|n| u64::from(*n) == number)
}
