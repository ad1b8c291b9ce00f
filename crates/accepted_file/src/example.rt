//! A worked example: a body and a process built by hand, which shows that what the types ask can be met.
ghost use Rattle.std.specs.Prelude.{◌≡◌, length, IfOk, IsTrue};
ghost use Rattle.core_term.specs.Widths.{Widths};
ghost use Rattle.core_term.specs.View.{term_of};
ghost use Rattle.core_term.specs.Body.{IsBody};
ghost use Rattle.core_term.specs.Sized.{words_fit};
ghost use Rattle.accepted_file.specs.Example.{counting_term};

use anvil_bits::Bits;
use anvil_lexer::Name;
use core_term::{BinOp, CoreAct, CoreExpr, CoreKind, CoreProc, CoreReg, CoreTerm, CoreThread};
use std::alloc::{AllocError, Global};

/// `set r := *r + 8'd1 >> cycle 2` for the register `r`, with places that are 0.
pub fn counting_body(alloc: Global, r: u32) -> Result<CoreTerm, AllocError>
    ensures body { IfOk result (λ body. IsBody body) }
    ensures term { IfOk result (λ body. (widths : Widths) → term_of widths body ≡ counting_term widths r) }
    ensures words { IfOk result (λ body. (widths : Widths) → IsTrue (words_fit widths body)) }
{
    let old = Box::new(alloc, CoreExpr::Reg(r))?;
    let one = Box::new(alloc, CoreExpr::Lit(Bits::new(8, 1)))?;
    let set = CoreAct {
        site: 0,
        at: 0,
        kind: CoreKind::Set {
            reg: r,
            value: CoreExpr::Bin(BinOp::Add, old, one),
        },
    };
    let wait = CoreAct {
        site: 1,
        at: 0,
        kind: CoreKind::Cycle(2),
    };
    let rest = Box::new(alloc, CoreTerm::One(wait))?;
    Ok(CoreTerm::Then(set, rest))
}

/// A process with the registers `a` and `b` of 8 bits, and a thread that counts each.
pub fn counting_process(alloc: Global) -> Result<CoreProc, AllocError>
    ensures ports { IfOk result (λ process. length process.ports.items ≡ 0) }
    ensures registers { IfOk result (λ process. length process.regs.items ≡ 2) }
    ensures threads { IfOk result (λ process. length process.threads.items ≡ 2) }
{
    let mut threads = Vec::new(alloc);
    threads.push(CoreThread::new(alloc, counting_body(alloc, 0)?)?)?;
    threads.push(CoreThread::new(alloc, counting_body(alloc, 1)?)?)?;
    let mut regs = Vec::new(alloc);
    regs.push(CoreReg {
        name: Name::of(alloc, b"a"),
        width: 8,
        reset: Bits::new(8, 0),
    })?;
    regs.push(CoreReg {
        name: Name::of(alloc, b"b"),
        width: 8,
        reset: Bits::new(8, 0),
    })?;
    Ok(CoreProc {
        name: Name::of(alloc, b"c"),
        ports: Vec::new(alloc),
        regs,
        threads,
    })
}
