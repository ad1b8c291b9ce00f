//! Signals, pulses and deeds by their numbers, past their lists too.
ghost use Rattle.std.specs.Prelude.{◌≡◌, ℕ, IfOk, length};
ghost use Rattle.module_nets.specs.Signals.{signal_at};
ghost use Rattle.pulse_nets.specs.Pulses.{pulse_at};
ghost use Rattle.act_deeds.specs.Deeds.{deed_at};
ghost use Rattle.machine_parts.specs.Parts.{bit_at, node_at, zero_bit};

use anvil_bits::Bits;
use machine_parts::Deed;
use module_nets::{Signal, SvOperand};
use pulse_nets::Pulse;
use std::alloc::{AllocError, Global};

/// A bit that is never 1.
pub fn no_bit() -> Signal
    ensures { result ≡ zero_bit }
{
    Signal {
        operand: SvOperand::Lit(Bits::new(1, 0)),
        width: 1,
    }
}

/// The bit of a number; past the list one that is never 1.
pub fn bit_of(bits: &[Signal], place: usize) -> Signal
    ensures { result ≡ bit_at bits.now place }
{
    match bits.get(place) {
        Some(bit) => *bit,
        None => no_bit(),
    }
}

/// The value of a site.
pub fn value_of(values: &[Signal], site: usize) -> Signal
    ensures { result ≡ signal_at values.now site }
{
    match values.get(site) {
        Some(value) => *value,
        None => Signal::none(),
    }
}

/// The pulse of a node.
pub fn pulse_of(pulses: &[Pulse], node: usize) -> Pulse
    ensures { result ≡ pulse_at pulses.now node }
{
    match pulses.get(node) {
        Some(pulse) => *pulse,
        None => Pulse {
            pulse: Signal::none(),
            known: Signal::none(),
        },
    }
}

/// The pulse of the node of a site.
pub fn pulse_in(pulses: &[Pulse], nodes: &[u32], site: usize) -> Pulse
    ensures { result ≡ pulse_at pulses.now (node_at nodes.now site) }
{
    match nodes.get(site) {
        Some(node) => pulse_of(pulses, *node as usize),
        None => pulse_of(pulses, 0),
    }
}

/// What the act of a site does.
pub fn deed_of(deeds: &[Deed], site: usize) -> Deed
    ensures { result ≡ deed_at deeds.now site }
{
    match deeds.get(site) {
        Some(deed) => *deed,
        None => Deed::Other,
    }
}

/// Bits that are never 1.
pub fn no_bits(alloc: Global, count: u32) -> Result<Vec<Signal>, AllocError>
    ensures count { IfOk result (λ bits. length bits.items ≡ count) }
    ensures none { IfOk result (λ bits. (place : ℕ) → bit_at bits.items place ≡ zero_bit) }
{
    let none = Signal {
        operand: SvOperand::Lit(Bits::new(1, 0)),
        width: 1,
    };
    let bits = vec![in alloc; none; count as usize]?;
    Ok(bits)
}
