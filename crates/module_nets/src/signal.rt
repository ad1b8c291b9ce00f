//! Signals: operands with their widths.
ghost use Rattle.std.specs.Prelude.{◌≡◌};
ghost use Rattle.sv_tree.specs.Module.{Module};
ghost use Rattle.module_nets.specs.Netlist.{Stands};
ghost use Rattle.module_nets.specs.Shown.{Moment, shown};
ghost use Rattle.module_nets.specs.Signals.{no_signal};

use anvil_bits::Bits;
use sv_tree::SvOperand;

/// An operand of a module and how many bits it has.
#[derive(Clone, Copy)]
pub struct Signal {
    /// What is read.
    pub operand: SvOperand,
    /// Its bits, 1 to 64, or 0 for a unit value.
    pub width: u8,
}

impl Signal {
    /// The signal of a unit value.
    pub fn none() -> Signal
        ensures { result ≡ no_signal }
    {
        Signal {
            operand: SvOperand::Lit(Bits::new(1, 0)),
            width: 0,
        }
    }

    /// A number that stands in the module as a literal.
    pub fn literal(number: Bits) -> Signal
        ensures stands { (tree : Module) → Stands tree result }
        ensures width { result.width ≡ number.width }
        ensures shows { (now : Moment) → shown now result ≡ number.value }
    {
        Signal {
            operand: SvOperand::Lit(number),
            width: number.width(),
        }
    }
}
