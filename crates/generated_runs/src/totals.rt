//! The counts of processes of the generated file.
ghost use Rattle.std.specs.Prelude.{◌≡◌, ◌≤◌, ◌<◌, length, IfOk};
ghost use Rattle.std.specs.List.{All};
ghost use Rattle.core_term.specs.AcceptedFile.{file_of, process_in};
ghost use Rattle.run_counts.specs.Counts.{AreFew};
ghost use Rattle.generated_runs.specs.Ready.{IsReady};
ghost use Rattle.generated_runs.specs.Totals.{IsCounted, IsTotalOf};

use core_term::CoreProc;
use fsm_builder::build;
use generated_file::rows_of;
use run_counts::{Counts, count_module};
use std::alloc::{AllocError, Global};

/// Compiles the process of a number, runs its module on its rows, and counts.
fn count_process(alloc: Global, proc: &CoreProc, index: u32) -> Result<Counts, AllocError>
    requires number { index < 64 }
    requires ready { IsReady (process_in proc.now) }
    ensures counted { IfOk result (IsCounted index (process_in proc.now)) }
    ensures few { IfOk result AreFew }
{
    let rows = rows_of(alloc, index)?;
    match build(alloc, proc) {
        Ok(module) => {
            let counts = count_module(alloc, proc, &module, &rows);
            drop((module, rows));
            counts
        }
        Err(refusal) => {
            drop(rows);
            Err(refusal)
        }
    }
}

/// The sums over processes, the first of the number 0.
///
/// Refuses only where memory is refused.
pub(crate) fn count_all(alloc: Global, procs: &[CoreProc]) -> Result<Counts, AllocError>
    requires few { length procs.now ≤ 64 }
    requires ready { All (λ proc. IsReady (process_in proc)) procs.now }
    ensures { IfOk result (IsTotalOf (file_of procs.now)) }
{
    let mut exchanges: u64 = 0;
    let mut registers: u128 = 0;
    for index in 0..procs.len() {
        let counts = count_process(alloc, &procs[index], index as u32)?;
        exchanges += counts.exchanges;
        registers += counts.registers;
    }
    Ok(Counts {
        exchanges,
        registers,
    })
}
