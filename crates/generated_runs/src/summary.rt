//! The summary of the generated file, and its line.
ghost use Rattle.anvil_io.specs.Causes.{Puts};
ghost use Rattle.generated_runs.specs.Summary.{summary_line};

use anvil_io::{Sink, SinkFault, put_all};
use itoa::Buffer;
use run_counts::Counts;

/// How many rows each process is run on.
const CYCLES: u32 = 100;

/// How many processes the generated file has and how many bytes, and what is counted of the runs of its processes.
#[derive(Clone, Copy, Debug)]
pub struct Summary {
    pub processes: u32,
    pub bytes: usize,
    pub totals: Counts,
}

/// Puts the line of a summary.
pub fn put_summary<O: Sink>(summary: Summary, out: &mut O) -> Result<(), SinkFault>
    ensures { Puts (O.held out.old) (O.held out.new) (O.faults out.old) (O.faults out.new)
        (summary_line summary.processes summary.bytes summary.totals) result }
{
    let mut processes = Buffer::new();
    let mut bytes = Buffer::new();
    let mut cycles = Buffer::new();
    let mut exchanges = Buffer::new();
    let mut registers = Buffer::new();
    let line: [&[u8]; 11] = [
        b"processes=",
        processes.format(summary.processes).as_bytes(),
        b" bytes=",
        bytes.format(summary.bytes).as_bytes(),
        b" cycles=",
        cycles.format(CYCLES).as_bytes(),
        b" exchanges=",
        exchanges.format(summary.totals.exchanges).as_bytes(),
        b" registers=",
        registers.format(summary.totals.registers).as_bytes(),
        b"\n",
    ];
    put_all(out, &line)
}
