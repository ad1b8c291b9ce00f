//! A process: its name, its endpoints, its registers and its threads, or the first check of them that fails.
ghost use Rattle.std.specs.Prelude.{MatchResult};
ghost use Rattle.anvil_tree.specs.Few.{ItemIsFew};
ghost use Rattle.anvil_tree.specs.Order.{ActsNeverFallIn};
ghost use Rattle.anvil_tree.specs.Tree.{process as written};
ghost use Rattle.anvil_tree.specs.View.{process_of};
ghost use Rattle.width_check.specs.ReadProcess.{ClassesPass, ProcessRead, ProcessFails};

use crate::endpoints::read_endpoints;
use crate::registers::read_registers;
use crate::threads::read_threads;
use anvil_lexer::{Name, is_good_name};
use anvil_tree::Proc;
use channel_classes::Classes;
use core_file::NameErr;
use core_term::CoreProc;
use expr_check::Known;
use indexmap::IndexSet;
use std::alloc::Global;

/// The core process of a process, after those of the names.
pub fn read_process(
    alloc: Global,
    process: &Proc,
    classes: &Classes,
    names: &IndexSet<Name>,
) -> Result<CoreProc, NameErr>
    requires classes { ClassesPass classes.now }
    requires few { ItemIsFew (written (process_of process.now)) }
    requires in_order { ActsNeverFallIn (written (process_of process.now)) }
    ensures { MatchResult result
        (λ read. ProcessRead classes.now names.now.keys (process_of process.now) read)
        (λ fault. ProcessFails classes.now names.now.keys (process_of process.now) fault) }
{
    if !is_good_name(process.name.bytes()) {
        return Err(NameErr::BadName { at: process.at });
    }
    if names.contains(&process.name) {
        return Err(NameErr::Twice { at: process.at });
    }
    match read_endpoints(alloc, &process.endpoints, classes) {
        Err(fault) => Err(fault),
        Ok((endpoints, ports)) => match read_registers(alloc, &process.registers) {
            Err(fault) => {
                drop((endpoints, ports));
                Err(fault)
            }
            Ok(registers) => {
                let known = Known {
                    endpoints,
                    ports,
                    registers,
                };
                match read_threads(alloc, &known, &process.threads) {
                    Err(fault) => {
                        drop(known);
                        Err(fault)
                    }
                    Ok(threads) => {
                        drop(known.endpoints);
                        Ok(CoreProc {
                            name: process.name.copy(),
                            ports: known.ports.into_ports(),
                            regs: known.registers.into_registers(),
                            threads,
                        })
                    }
                }
            }
        },
    }
}
