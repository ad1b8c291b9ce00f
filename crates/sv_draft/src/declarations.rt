//! What the declarations of registers and nets come to.
ghost use Rattle.std.specs.Prelude.{◌≤◌};
ghost use Rattle.anvil_bits.specs.Number.{widest};
ghost use Rattle.sv_lines.specs.Step.{declared_by, declared_step, register_by};
ghost use Rattle.sv_pieces.specs.Seen.{declared_of, label_of};
ghost use Rattle.sv_draft.specs.SeenDraft.{draft_of};
ghost use Rattle.sv_draft.specs.Reached.{IsReading, reached_of};

use crate::draft::Draft;
use crate::fault::Fault;
use crate::output_steps::is_empty;
use crate::room::has_room;
use crate::wanted::{Reached, Wanted};
use anvil_bits::Bits;
use sv_pieces::{Declared, Label};
use sv_tree::{SvReg, SvRegName};

// A register of a name that none has, before the nets. Its reset is read later.
fn register_by<'a>(
    draft: &mut Draft,
    name: SvRegName,
    width: u8,
    may_stand: bool,
) -> Result<Reached<'a>, Fault>
    requires least { 1 ≤ width }
    requires most { width ≤ widest }
    ensures { IsReading (reached_of draft.new) (register_by (draft_of draft.old) name width may_stand) result }
{
    if may_stand
        && is_empty(draft.nets.nets())
        && has_room(draft.regs.regs().len())
        && draft.regs.is_fresh(&name)
    {
        let reset = Bits::new(width, 0);
        match draft.add_register(SvReg { name, width, reset }) {
            Ok(()) => Ok(Reached::Onward(Wanted::Item)),
            Err(fault) => Err(fault),
        }
    } else {
        Err(Fault::CannotStand)
    }
}

fn declared_by<'a>(draft: &mut Draft, width: u8, label: Label) -> Result<Reached<'a>, Fault>
    requires least { 1 ≤ width }
    requires most { width ≤ widest }
    ensures { IsReading (reached_of draft.new) (declared_by (draft_of draft.old) width (label_of label)) result }
{
    let states = draft.regs.states();
    match label {
        Label::Source(name) => register_by(draft, SvRegName::Source(name), width, states == 0),
        Label::State(number) => if number == states {
            register_by(draft, SvRegName::State(number as u32), width, true)
        } else {
            Err(Fault::CannotStand)
        },
        Label::Net(number) => {
            let count = draft.nets.nets().len();
            if number == count as u64 && has_room(count) {
                Ok(Reached::Onward(Wanted::Assign(width)))
            } else {
                Err(Fault::CannotStand)
            }
        }
    }
}

/// The declaration of a register or a net, which stands before the outputs.
pub fn declared_step<'a>(draft: &mut Draft, declared: Declared) -> Result<Reached<'a>, Fault>
    requires least { 1 ≤ declared.width }
    requires most { declared.width ≤ widest }
    ensures { IsReading (reached_of draft.new) (declared_step (draft_of draft.old) (declared_of declared)) result }
{
    if is_empty(draft.outs.as_slice()) {
        declared_by(draft, declared.width, declared.label)
    } else {
        Err(Fault::CannotStand)
    }
}
