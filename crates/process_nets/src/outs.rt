//! What the ports of a module are given.
ghost use Rattle.std.specs.Prelude.{◌≡◌, ℕ, ◌<◌, IfOk, length, slice_get, Some};
ghost use Rattle.core_term.specs.declared.process.CorePort.{CorePort};
ghost use Rattle.sv_tree.specs.Limits.{too_many};
ghost use Rattle.module_nets.specs.Netlist.{Extends};
ghost use Rattle.process_nets.specs.Outs.{PortDrawn, PortsDrawn, PortStands};

use crate::acts::{draw_data, draw_offered};
use anvil_bits::Bits;
use core_term::CorePort;
use machine_parts::ThreadDraft;
use module_nets::{Netlist, Signal, SvOut};
use std::alloc::{AllocError, Global};

/// What each port is given, in their order.
pub fn draw_outs(
    alloc: Global,
    netlist: &mut Netlist,
    ports: &[CorePort],
    drafts: &[ThreadDraft<'_>],
) -> Result<Vec<SvOut>, AllocError>
    requires few { length ports.now < too_many }
    requires ports { (port : ℕ) (is : CorePort) → slice_get ports.now port ≡ Some is →
        PortStands netlist.old drafts.now port is }
    ensures extends { IfOk result (λ outs. Extends netlist.old netlist.new) }
    ensures count { IfOk result (λ outs. length outs.items ≡ length ports.now) }
    ensures drawn { IfOk result (λ outs.
        PortsDrawn netlist.new drafts.now ports.now outs.items (length ports.now)) }
{
    let mut outs = Vec::new(alloc);
    for port in 0..ports.len() {
        let out = draw_out(netlist, drafts, port as u32, &ports[port])?;
        outs.push(out)?;
    }
    Ok(outs)
}

/// What a port is given: that an act on it is offered, and where it is sent, its data.
fn draw_out(
    netlist: &mut Netlist,
    drafts: &[ThreadDraft<'_>],
    port: u32,
    is: &CorePort,
) -> Result<SvOut, AllocError>
    requires { PortStands netlist.old drafts.now port is.now }
    ensures extends { IfOk result (λ out. Extends netlist.old netlist.new) }
    ensures drawn { IfOk result (PortDrawn netlist.new drafts.now port is.now) }
{
    let offered = draw_offered(netlist, drafts, port)?;
    if is.received {
        Ok(SvOut::Received {
            ack: offered.operand,
        })
    } else {
        let none = Signal::literal(Bits::new(is.width, 0));
        let sent = draw_data(netlist, drafts, port, &none)?;
        Ok(SvOut::Sent {
            value: sent.operand,
            valid: offered.operand,
        })
    }
}
