//! What the acts of a turn drive and write in a cycle.
ghost use Rattle.std.specs.Prelude.{◌≡◌, ◌<◌, ℕ, length, true};
ghost use Rattle.sim_laws.specs.Advance.{state_at};
ghost use Rattle.sim_laws.specs.Passes.{is_offered, begins_now, drive_by, drive_all as all_driven, write_by, write_all as all_written, cleared};

use anvil_bits::Bits;
use sim_laws::{ActState, Does, Drive};

/// Marks what one act drives. The first act that is offered on a port tells the number.
fn drive_one(act: &ActState, drives: &mut [Drive])
    ensures { drives.new ≡ drive_by (is_offered act.now) act.now.does act.now.taken drives.old }
{
    if act.begun && !act.over {
        match act.does {
            Does::Sends(port) => {
                if (port as usize) < drives.len() && !drives[port as usize].offered {
                    drives[port as usize] = Drive {
                        offered: true,
                        number: act.taken,
                    };
                }
            }
            Does::Receives(port) => {
                if (port as usize) < drives.len() {
                    drives[port as usize].offered = true;
                }
            }
            Does::Nothing => {}
            Does::Sets(_) => {}
        }
    }
}

/// Marks what acts drive, in the order of their sites.
pub fn drive_all(acts: &[ActState], drives: &mut [Drive])
    ensures { drives.new ≡ all_driven acts.now drives.old }
{
    for act in acts {
        drive_one(act, drives);
    }
}

/// Writes what one act sets.
fn write_one(act: &ActState, nexts: &mut [Bits])
    ensures { nexts.new ≡ write_by (begins_now act.now) act.now.does act.now.taken nexts.old }
{
    if act.begun && act.fresh {
        match act.does {
            Does::Sets(register) => {
                if (register as usize) < nexts.len() {
                    nexts[register as usize] = act.taken;
                }
            }
            Does::Nothing => {}
            Does::Sends(_) => {}
            Does::Receives(_) => {}
        }
    }
}

/// Writes what acts set, in the order of their sites: the last set of a register counts.
pub fn write_all(acts: &[ActState], nexts: &mut [Bits])
    ensures { nexts.new ≡ all_written acts.now nexts.old }
{
    for act in acts {
        write_one(act, nexts);
    }
}

/// Sets all acts back: none has begun.
pub fn clear(acts: &mut [ActState])
    ensures { acts.new ≡ cleared acts.old }
{
    for index in 0..acts.len() {
        acts[index].begun = false;
    }
}
