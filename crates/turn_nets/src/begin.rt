//! Whether a turn begins.
ghost use Rattle.std.specs.Prelude.{◌≡◌, ◌||◌, IfOk, not};
ghost use Rattle.module_nets.specs.Netlist.{Extends};
ghost use Rattle.module_nets.specs.Shown.{Moment, IsMomentOf};
ghost use Rattle.module_nets.specs.Bits.{IsBit, Tells, told};

use pulse_nets::{Netlist, Signal};
use std::alloc::AllocError;

/// Whether a turn begins: where none has begun, and where one ends.
pub fn draw_begin(
    netlist: &mut Netlist,
    started: &Signal,
    end: &Signal,
) -> Result<Signal, AllocError>
    requires started { IsBit netlist.old started.now }
    requires end { IsBit netlist.old end.now }
    ensures extends { IfOk result (λ begin. Extends netlist.old netlist.new) }
    ensures bit { IfOk result (λ begin. IsBit netlist.new begin) }
    ensures tells { IfOk result (λ begin. Tells netlist.new begin
        (λ now. not (told now started.now) || told now end.now)) }
{
    let first = netlist.invert(started)?;
    let begin = netlist.or(&first, end)?;
    Ok(begin)
}
