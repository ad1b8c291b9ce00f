//! What the pulses of a turn are drawn from.
ghost use Rattle.std.specs.Prelude.{◌≡◌, not};
ghost use Rattle.machine_parts.specs.Parts.{bit_at, zero_bit};

use anvil_bits::Bits;
use machine_parts::NodePlan;
use module_nets::Signal;
use pulse_nets::Part;
use sv_tree::SvOperand;

/// What the pulses of a turn are drawn from: the nodes, the register of each node, and the wires of the ports.
#[derive(Clone, Copy)]
pub struct TurnSetting<'a> {
    /// How each node is drawn.
    pub nodes: &'a [NodePlan],
    /// The bit or the counter of each node.
    pub states: &'a [Signal],
    /// The wire of each port: its `valid` where the port is received, its `ack` where it is sent.
    pub wires: &'a [Signal],
}

/// A bit that is never 1.
pub fn zero() -> Signal
    ensures { result ≡ zero_bit }
{
    Signal {
        operand: SvOperand::Lit(Bits::new(1, 0)),
        width: 1,
    }
}

/// The bit of a number; past the list a bit that is never 1.
pub fn bit_of(bits: &[Signal], place: usize) -> Signal
    ensures { result ≡ bit_at bits.now place }
{
    match bits.get(place) {
        Some(bit) => *bit,
        None => zero(),
    }
}

/// A node of this plan, with its signals. A join of the tail keeps what has come over the begin of a turn.
pub fn part_of(plan: &NodePlan, state: &Signal, event: &Signal) -> Part
    ensures { result ≡ record {
      shape = plan.now.shape;
      forgets = not plan.now.tail;
      state = state.now;
      event = event.now;
    } }
{
    Part {
        shape: plan.shape,
        forgets: !plan.tail,
        state: *state,
        event: *event,
    }
}
