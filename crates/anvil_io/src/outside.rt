//! The traits of the outside: a shelf gives the bytes that it holds under a name, and a sink takes pieces one after another.
//!
//! Each keeps a count of faults. A call answers a fault only where that count rose, so a caller of the tool can tell a
//! fault of the outside from a tool that gives up.
ghost use Rattle.std.specs.Prelude.{◌≡◌, ◌≤◌, ◌↔◌, List, [], ℕ, length, IfSome, OnOk, OnErr};
ghost use Rattle.std.specs.declared.option.Option.{Option};
ghost use Rattle.std.specs.Io.KnownBytes.{Appends};
ghost use Rattle.anvil_io.specs.Causes.{Rose, FaultHasCause, LengthHasCause, AppendsPrefix};

use thiserror::Error;

/// Why a load gave nothing.
#[derive(Clone, Copy, Debug, PartialEq, Eq, Error)]
pub enum LoadErr {
    /// The shelf failed, or has nothing under the name: only where its count of faults rose.
    #[error("read fault")]
    Fault,
    /// The bytes are more than the limit.
    #[error("too long")]
    TooLong,
    /// No memory was found.
    #[error("no memory")]
    NoMemory,
}

/// A put failed: only where the sink's count of faults rose.
#[derive(Clone, Copy, Debug, PartialEq, Eq)]
pub struct SinkFault;

/// Gives bytes by name. Its counts never fall, and stop at `u64::MAX`.
pub trait Shelf {
    /// The bytes under a name, or `None` where the shelf does not tell.
    ghost told: { Self → List ℕ → Option (List ℕ) };

    /// How often a load has been a fault.
    ghost faults: { Self → ℕ };

    /// How many bytes the loads have taken.
    ghost taken: { Self → ℕ };

    /// The names that may be asked for.
    ghost may_ask: { Self → List ℕ → Type 0 };

    /// Puts the bytes under `name` into `into`, which is empty before: at most `limit` many. After a refusal `into` is
    /// empty. No load changes what the shelf holds, nor which names may be asked for.
    fn load(&mut self, name: &str, limit: u32, into: &mut Vec<u8>) -> Result<(), LoadErr>
        requires asked { may_ask self.old name.now }
        requires empty { into.old.items ≡ [] }
        ensures bytes { OnOk result (IfSome (told self.old name.now) (λ bytes. into.new.items ≡ bytes)) }
        ensures within { OnOk result (length into.new.items ≤ limit) }
        ensures emptied { OnErr result (into.new.items ≡ []) }
        ensures fault { FaultHasCause (faults self.old) (faults self.new) result }
        ensures too_long { LengthHasCause (told self.old name.now) limit (taken self.old) (taken self.new) result }
        ensures kept { (n : List ℕ) → told self.new n ≡ told self.old n }
        ensures names { (n : List ℕ) → (may_ask self.old n ↔ may_ask self.new n) };
}

/// Takes pieces, one after another. Its count of faults never falls, and stops at `u64::MAX`.
pub trait Sink {
    /// The bytes that it holds, or `None` where the sink does not tell.
    ghost held: { Self → Option (List ℕ) };

    /// How often a put has failed.
    ghost faults: { Self → ℕ };

    /// Takes the whole piece, or fails and takes a front part of it.
    fn put(&mut self, bytes: &[u8]) -> Result<(), SinkFault>
        ensures appends { OnOk result (Appends (held self.old) (held self.new) bytes.now) }
        ensures prefix { OnErr result (AppendsPrefix (held self.old) (held self.new) bytes.now) }
        ensures cause { OnErr result (Rose (faults self.old) (faults self.new)) }
        ensures fine { OnOk result (faults self.new ≡ faults self.old) }
        ensures later { faults self.old ≤ faults self.new };
}
