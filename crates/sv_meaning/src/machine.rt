//! A machine that runs a module, one row of inputs a cycle.
ghost use Rattle.std.specs.Prelude.{◌≡◌, ◌≤◌, ◌++◌, ◌∷◌, [], IfOk, List, length, take};
ghost use Rattle.core_term.specs.declared.rows.Row.{Row as RowSeen};
ghost use Rattle.sv_meaning.specs.Rows.{FitsPorts};
ghost use Rattle.sv_meaning.specs.Stands.{StandsAfter};
ghost use Rattle.sv_meaning.specs.Shown.{HasPlaces, ShowsOutputs, ShowsSources};

use crate::cycle::Cycle;
use anvil_bits::Bits;
use core_term::{OutRow, Row};
use std::alloc::{AllocError, Global};
use std::marker::Model;
use sv_tree::SvModule;

/// A module in one of its cycles. Contracts see it as the module and the values of its registers.
///
/// `nets` and `nexts` are kept for their room alone.
#[derive(Drop)]
pub struct Machine<'m> {
    module: &'m SvModule,
    registers: Vec<Bits>,
    nets: Vec<Bits>,
    nexts: Vec<Bits>,
}

impl<'m> Model for Machine<'m> {
    ghost use Rattle.sv_meaning.specs.State.{State};

    ghost Value = { State };

    ghost use Rattle.sv_meaning.specs.Inside.{state_of, IsMachine};

    ghost view = { state_of };

    ghost invariant = { IsMachine };
}

impl<'m> Machine<'m> {
    /// A machine of the module in cycle 0, in which the registers show their resets.
    ///
    /// Refuses only where memory is refused.
    pub fn new(alloc: Global, module: &'m SvModule) -> Result<Machine<'m>, AllocError>
        ensures same_module { IfOk result (λ machine. machine.tree ≡ «module».now) }
        ensures stands { IfOk result (StandsAfter []) }
    {
        let count = module.regs().len();
        let mut registers = Vec::with_capacity(alloc, count)?;
        for reg in module.regs() {
            registers.push_reserved(reg.reset);
        }
        let nets = Vec::with_capacity(alloc, module.nets().len())?;
        let nexts = Vec::with_capacity(alloc, count)?;
        Ok(Machine {
            module,
            registers,
            nets,
            nexts,
        })
    }

    /// Runs one cycle: shows in `out` what goes out and what the source registers show, and then moves the registers on.
    ///
    /// `row` has a cell for each port, of its direction and width. `out` has as many cells, and one place for each source
    /// register; what it held before does not matter. No memory is taken.
    pub fn step(&mut self, row: &Row, out: &mut OutRow)
        requires row { FitsPorts self.old.tree row.now }
        requires places { HasPlaces self.old.tree out.old }
        ensures same_module { self.new.tree ≡ self.old.tree }
        ensures places { HasPlaces self.new.tree out.new }
        ensures stands { (rows : List RowSeen) → StandsAfter rows self.old → StandsAfter (rows ++ row.now ∷ []) self.new }
        ensures cells { (rows : List RowSeen) → StandsAfter rows self.old → ShowsOutputs rows row.now self.old.tree out.new }
        ensures regs { (rows : List RowSeen) → StandsAfter rows self.old → ShowsSources rows row.now self.old.tree out.new }
    {
        let cycle = Cycle {
            module: self.module,
            cells: row.cells.as_slice(),
            registers: self.registers.as_slice(),
        };
        cycle.value_nets(&mut self.nets);
        let nets = self.nets.as_slice();
        cycle.show_outs(nets, out.cells.as_mut_slice());
        show_sources(self.registers.as_slice(), out.regs.as_mut_slice());
        cycle.value_nexts(nets, &mut self.nexts);
        std::mem::swap(&mut self.registers, &mut self.nexts);
    }
}

/// Shows the source registers, which stand before the states.
fn show_sources(numbers: &[Bits], shown: &mut [Bits])
    requires { length shown.old ≤ length numbers.now }
    ensures { shown.new ≡ take (length shown.old) numbers.now }
{
    for index in 0..shown.len() {
        shown[index] = numbers[index];
    }
}
