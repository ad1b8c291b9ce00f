//! The text of an emitted module (IEEE 1800-2017, clauses 23.2, 10.3.2, 9.2.2.4 and 10.4.2), put into a sink.
//!
//! Takes a module and gives its one text, piece by piece: nothing is kept, so no memory is taken. A put that fails ends it.
#![tactic(auto)]

ghost use Rattle.anvil_io.specs.Causes.{Puts};
ghost use Rattle.sv_tree.specs.Text.{module_text};

mod clock;
mod header;
mod nets;
mod operands;
mod operators;
mod outputs;
mod pieces;

use crate::clock::put_clock;
use crate::header::put_header;
use crate::nets::{put_nets, put_registers};
use crate::outputs::put_outputs;
use anvil_io::{Sink, SinkFault, put_all};
use sv_tree::SvModule;

/// Puts the one text of the module. It takes no memory.
///
/// It fails exactly where a put fails: then the sink's count of faults rose in this call, and the sink holds what it held
/// before, followed by a front part of the text.
pub fn write_module<W: Sink>(module: &SvModule, out: &mut W) -> Result<(), SinkFault>
    ensures { Puts (W.held out.old) (W.held out.new) (W.faults out.old) (W.faults out.new) (module_text «module».now) result }
{
    put_header(module, out)?;
    put_registers(module, out)?;
    put_nets(module, out)?;
    put_outputs(module, out)?;
    put_clock(module, out)?;
    put_all(out, &[b"endmodule\n"])
}
