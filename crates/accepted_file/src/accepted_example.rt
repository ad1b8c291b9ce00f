//! A worked example: a file whose one process keeps every demand, accepted.
ghost use Rattle.std.specs.Prelude.{◌≡◌, length, IfOk};

use crate::Accepted;
use crate::example::counting_body;
use anvil_bits::Bits;
use anvil_lexer::Name;
use core_term::{CoreFile, CoreProc, CoreReg, CoreThread};
use std::alloc::{AllocError, Global};

/// The file of one process, with the register `a` of 8 bits and the thread `set a := *a + 8'd1 >> cycle 2`.
pub fn accepted_counter(alloc: Global) -> Result<Accepted, AllocError>
    ensures { IfOk result (λ file. length file.procs.items ≡ 1) }
{
    let mut threads = Vec::new(alloc);
    threads.push(CoreThread::new(alloc, counting_body(alloc, 0)?)?)?;
    let mut regs = Vec::new(alloc);
    regs.push(CoreReg {
        name: Name::of(alloc, b"a"),
        width: 8,
        reset: Bits::new(8, 0),
    })?;
    let mut procs = Vec::new(alloc);
    procs.push(CoreProc {
        name: Name::of(alloc, b"c"),
        ports: Vec::new(alloc),
        regs,
        threads,
    })?;
    Ok(Accepted::of(CoreFile { procs }))
}
