//! A text of several pieces, put one after another until one fails.
ghost use Rattle.anvil_io.specs.Causes.{Puts, joined};

use crate::{Sink, SinkFault};

/// Puts the pieces in order. After the first put that fails nothing more is put.
pub fn put_all<W: Sink>(out: &mut W, pieces: &[&[u8]]) -> Result<(), SinkFault>
    ensures { Puts (W.held out.old) (W.held out.new) (W.faults out.old) (W.faults out.new) (joined pieces.now) result }
{
    for piece in pieces {
        match out.put(piece) {
            Ok(()) => {}
            Err(fault) => return Err(fault),
        }
    }
    Ok(())
}
