//! A frame as its states are added.
ghost use Rattle.std.specs.Prelude.{◌≡◌, ◌≤◌, ◌∷◌, [], IfOk};
ghost use Rattle.machine_parts.specs.Frames.{HasRegister};
ghost use Rattle.machine_parts.specs.Parts.{zero_bit};
ghost use Rattle.pulse_nets.specs.Pulses.{form_of};
ghost use Rattle.module_frame.specs.Slots.{node_slot, site_slot};
ghost use Rattle.module_frame.specs.Drafts.{HasRoom, Grown, NodeHeld, SiteHeld};

use crate::digits::digit_count;
use anvil_bits::Bits;
use machine_parts::{Deed, Frame, Keep, Shape, Signal, SvReg};
use std::alloc::AllocError;
use sv_tree::{SvOperand, SvRef, SvRegName};

/// A frame, and how many states it has so far.
#[derive(Drop)]
pub struct FrameDraft {
    pub frame: Frame,
    pub state_count: u32,
}

/// The registers of an act. What has no register has a literal bit 0 in its place.
#[derive(Clone, Copy)]
pub struct SiteState {
    /// The kept side of an `if`.
    pub side: Signal,
    /// Whether a `send` began last of its port.
    pub newest: Signal,
}

/// A bit that is never 1.
fn zero_bit() -> Signal
    ensures { result ≡ zero_bit }
{
    Signal {
        operand: SvOperand::Lit(Bits::new(1, 0)),
        width: 1,
    }
}

impl FrameDraft {
    /// One state more, which keeps this.
    pub fn add_state(&mut self, keep: Keep, width: u8) -> Result<Signal, AllocError>
        requires some { 1 ≤ width }
        requires few { width ≤ 64 }
        requires room { HasRoom self.old 1 }
        ensures grown { IfOk result (λ signal. Grown self.old self.new (record { keep = keep; width = width } ∷ [])) }
        ensures held { IfOk result (λ signal. HasRegister self.new.frame keep signal) }
        ensures width { IfOk result (λ signal. signal.width ≡ width) }
    {
        let place = self.frame.regs.len() as u32;
        self.frame.regs.push(SvReg {
            name: SvRegName::State(self.state_count),
            width,
            reset: Bits::new(width, 0),
        })?;
        self.frame.keeps.push(keep)?;
        self.state_count += 1;
        Ok(Signal {
            operand: SvOperand::Ref(SvRef::Reg(place)),
            width,
        })
    }

    /// The bit or the counter of a node, if its shape asks for one.
    pub fn add_node(&mut self, thread: u32, node: u32, shape: Shape) -> Result<Signal, AllocError>
        requires room { HasRoom self.old 1 }
        ensures grown { IfOk result (λ signal. Grown self.old self.new (node_slot thread node (form_of shape))) }
        ensures held { IfOk result (λ signal. NodeHeld self.new.frame thread node (form_of shape) signal) }
    {
        let keep = Keep::Node { thread, node };
        let signal = match shape {
            Shape::After(delay, _) => self.add_state(keep, digit_count(delay))?,
            Shape::Sync(_) | Shape::Join(_, _) => self.add_state(keep, 1)?,
            Shape::Start | Shape::Same(_) | Shape::Side(_) | Shape::Merge(_, _) => zero_bit(),
        };
        Ok(signal)
    }

    /// What an act asks for: an `if` the side of its decision, and a `send` whether it began last of its port.
    pub fn add_site(&mut self, thread: u32, site: u32, deed: Deed) -> Result<SiteState, AllocError>
        requires room { HasRoom self.old 1 }
        ensures grown { IfOk result (λ signals. Grown self.old self.new (site_slot thread site deed)) }
        ensures held { IfOk result (λ signals. SiteHeld self.new.frame thread site deed signals) }
    {
        let mut state = SiteState {
            side: zero_bit(),
            newest: zero_bit(),
        };
        match deed {
            Deed::Decides => state.side = self.add_state(Keep::Side { thread, site }, 1)?,
            Deed::Sends(_) => state.newest = self.add_state(Keep::Newest { thread, site }, 1)?,
            _ => {}
        }
        Ok(state)
    }
}
