//! The signals that threads read: the registers of the source, the data of the ports and the wires that end acts on them.
ghost use Rattle.std.specs.Prelude.{◌≡◌, ◌≤◌, IfOk, length};
ghost use Rattle.source_signals.specs.Sources.{AreWide, RegistersAre, WiresAre, WordsAre};
ghost use Rattle.source_signals.specs.Sources.{register_signal, wire_signal, word_signal};

use anvil_bits::Bits;
use core_term::{CorePort, CoreReg};
use module_nets::Signal;
use std::alloc::{AllocError, Global};
use sv_tree::{SvOperand, SvRef};

/// What each register of the source shows.
pub fn register_signals(alloc: Global, registers: &[CoreReg]) -> Result<Vec<Signal>, AllocError>
    requires { length registers.now ≤ 4294967295 }
    ensures { IfOk result (λ signals. RegistersAre registers.now signals.items) }
{
    let mut signals = Vec::new(alloc);
    for register in registers {
        signals.push(Signal {
            operand: SvOperand::Ref(SvRef::Reg(signals.len() as u32)),
            width: register.width,
        })?;
    }
    Ok(signals)
}

/// The data that come in on each received port; a sent port has the number 0 of its width in its place.
pub fn word_signals(alloc: Global, ports: &[CorePort]) -> Result<Vec<Signal>, AllocError>
    requires few { length ports.now ≤ 4294967295 }
    requires wide { AreWide ports.now }
    ensures { IfOk result (λ signals. WordsAre ports.now signals.items) }
{
    let mut signals = Vec::new(alloc);
    for port in ports {
        let operand = word_operand(signals.len() as u32, port);
        signals.push(Signal {
            operand,
            width: port.width,
        })?;
    }
    Ok(signals)
}

/// The wire of each port that ends an act on it: its `valid` where it is received, its `ack` where it is sent.
pub fn wire_signals(alloc: Global, ports: &[CorePort]) -> Result<Vec<Signal>, AllocError>
    requires { length ports.now ≤ 4294967295 }
    ensures { IfOk result (λ signals. WiresAre ports.now signals.items) }
{
    let mut signals = Vec::new(alloc);
    for port in ports {
        let operand = wire_operand(signals.len() as u32, port);
        signals.push(Signal { operand, width: 1 })?;
    }
    Ok(signals)
}

/// The data of the port of a number, where it is received, and else 0.
fn word_operand(place: u32, port: &CorePort) -> SvOperand
    requires some { 1 ≤ port.now.width }
    requires few { port.now.width ≤ 64 }
    ensures { result ≡ (word_signal place port.now).operand }
{
    if port.received {
        SvOperand::Ref(SvRef::Data(place))
    } else {
        SvOperand::Lit(Bits::new(port.width, 0))
    }
}

/// The wire of the port of a number that ends an act on it.
fn wire_operand(place: u32, port: &CorePort) -> SvOperand
    ensures { result ≡ (wire_signal place port.now).operand }
{
    if port.received {
        SvOperand::Ref(SvRef::Valid(place))
    } else {
        SvOperand::Ref(SvRef::Ack(place))
    }
}
