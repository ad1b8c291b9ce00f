//! The wires of a port in a cycle, as its two cells show them.
ghost use Rattle.std.specs.Prelude.{◌≡◌};
ghost use Rattle.stim_text.specs.LogLine.{wires_at};

use anvil_bits::Bits;
use core_term::{InCell, OutCell};

/// The `valid` of a port.
pub fn valid_of(cell: &InCell, out: &OutCell) -> bool
    ensures { result ≡ (wires_at cell.now out.now).valid }
{
    match cell {
        InCell::Received { valid, .. } => match out {
            OutCell::Received { .. } => *valid,
            OutCell::Sent { .. } => *valid,
        },
        InCell::Sent { .. } => match out {
            OutCell::Received { .. } => false,
            OutCell::Sent { valid, .. } => *valid,
        },
    }
}

/// The `ack` of a port.
pub fn ack_of(cell: &InCell, out: &OutCell) -> bool
    ensures { result ≡ (wires_at cell.now out.now).ack }
{
    match cell {
        InCell::Received { .. } => match out {
            OutCell::Received { ack } => *ack,
            OutCell::Sent { .. } => false,
        },
        InCell::Sent { ack } => match out {
            OutCell::Received { .. } => *ack,
            OutCell::Sent { .. } => *ack,
        },
    }
}

/// The data of a port.
pub fn data_of(cell: &InCell, out: &OutCell) -> Bits
    ensures { result ≡ (wires_at cell.now out.now).number }
{
    match cell {
        InCell::Received { value, .. } => match out {
            OutCell::Received { .. } => *value,
            OutCell::Sent { .. } => *value,
        },
        InCell::Sent { .. } => match out {
            OutCell::Received { .. } => Bits::new(1, 0),
            OutCell::Sent { value, .. } => *value,
        },
    }
}
