//! The registers that other threads of a process set.
ghost use Rattle.std.specs.Prelude.{◌≡◌, ◌<◌, length, IfOk};
ghost use Rattle.loan_check.specs.Elsewhere.{AddsThread, AreElsewhere, is_among, with_set, with_sets};

use demand_checks::{CoreProc, Deed, deeds_of};
use std::alloc::{AllocError, Global};

/// The registers that threads other than that of a number set, each once.
///
/// Refuses only where memory is refused.
pub fn set_elsewhere(alloc: Global, proc: &CoreProc, thread: u32) -> Result<Vec<u32>, AllocError>
    ensures { IfOk result (λ registers. AreElsewhere proc.now thread registers.items) }
{
    let mut registers = Vec::new(alloc);
    for index in 0..proc.threads.len() {
        add_other(alloc, proc, thread, index, &mut registers)?;
    }
    Ok(registers)
}

/// Adds the registers that the thread of the number `index` sets, where it is another one.
fn add_other(
    alloc: Global,
    proc: &CoreProc,
    thread: u32,
    index: usize,
    registers: &mut Vec<u32>,
) -> Result<(), AllocError>
    requires { index < length proc.now.threads.items }
    ensures { IfOk result (λ _. AddsThread index proc.now thread registers.old.items registers.new.items) }
{
    if index == thread as usize {
        return Ok(());
    }
    let deeds = deeds_of(alloc, &proc.threads[index])?;
    add_sets(&deeds, registers)?;
    Ok(())
}

/// Adds the registers that are set and not there yet.
fn add_sets(deeds: &[Deed], registers: &mut Vec<u32>) -> Result<(), AllocError>
    ensures { IfOk result (λ _. registers.new.items ≡ with_sets deeds.now registers.old.items) }
{
    for deed in deeds {
        add_set(*deed, registers)?;
    }
    Ok(())
}

/// Adds the register that an act sets, where it is not there yet.
fn add_set(deed: Deed, registers: &mut Vec<u32>) -> Result<(), AllocError>
    ensures { IfOk result (λ _. registers.new.items ≡ with_set deed registers.old.items) }
{
    match deed {
        Deed::Sets(register) => {
            if !is_among(register, registers) {
                registers.push(register)?;
            }
            Ok(())
        }
        _ => Ok(()),
    }
}

/// Whether a register is one of these.
pub fn is_among(register: u32, registers: &[u32]) -> bool
    ensures { result ≡ is_among register registers.now }
{
    for other in registers {
        if *other == register {
            return true;
        }
    }
    false
}
