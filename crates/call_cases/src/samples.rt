//! A process for the tests: an endpoint that takes requests and gives answers of 8 bits, and a register.
use crate::answers::push;
use anvil_bits::Bits;
use anvil_lexer::Name;
use core_term::{CoreLife, CorePort, CoreProc, CoreReg};
use std::alloc::{AllocError, Global};

/// A request lives until the answer, and an answer for one cycle.
pub fn exchanger(alloc: Global) -> Result<CoreProc, AllocError> {
    let mut ports = Vec::new(alloc);
    let mut regs = Vec::new(alloc);
    let request = CorePort {
        endpoint: Name::of(alloc, b"p"),
        message: Name::of(alloc, b"req"),
        received: true,
        width: 8,
        life: CoreLife::Until(1),
    };
    let answer = CorePort {
        endpoint: Name::of(alloc, b"p"),
        message: Name::of(alloc, b"res"),
        received: false,
        width: 8,
        life: CoreLife::Cycles(1),
    };
    let kept = CoreReg {
        name: Name::of(alloc, b"r"),
        width: 8,
        reset: Bits::new(8, 0),
    };
    match (
        push(&mut ports, request),
        push(&mut ports, answer),
        push(&mut regs, kept),
    ) {
        (Ok(()), Ok(()), Ok(())) => Ok(CoreProc {
            name: Name::of(alloc, b"e"),
            ports,
            regs,
            threads: Vec::new(alloc),
        }),
        _ => {
            drop(ports);
            drop(regs);
            Err(AllocError)
        }
    }
}
