//! The registers of a process, or the first check of them that fails.
ghost use Rattle.std.specs.Prelude.{◌≡◌, ◌≤◌, None, Some, true, false, length, MatchResult};
ghost use Rattle.std.specs.List.{list_any};
ghost use Rattle.core_term.specs.Limits.{most_registers};
ghost use Rattle.core_term.specs.ProcessView as core;
ghost use Rattle.first_check.specs.Check.{first_refusal};
ghost use Rattle.core_file.specs.CoreProcess.{register_of, reset_of};
ghost use Rattle.core_file.specs.ProcessChecks.{register_checks, reset_checks};
ghost use Rattle.core_file.specs.Refused.{is_width};
ghost use Rattle.expr_check.specs.Tables.{names_of, is_register_named};
ghost use Rattle.width_check.specs.ReadRegisters.{RegistersRead, RegistersFail};

use anvil_bits::Bits;
use anvil_lexer::is_good_name;
use anvil_tree::Register;
use core_file::NameErr;
use core_term::CoreReg;
use expr_check::{RegisterTable, is_width, read_literal};
use std::alloc::Global;

// What a register shows in cycle 0, by its literal; a register without one resets to 0.
#[tactic(auto, using(first_check::proofs::Walks::passes, first_check::proofs::Walks::stops))]
fn read_reset(register: &Register) -> Result<Bits, NameErr>
    requires { is_width register.now.width ≡ true }
    ensures { MatchResult result
        (λ reset. (first_refusal (reset_checks register.now.width register.now.reset) ≡ None)
        × (reset.width ≡ register.now.width) × (reset.value ≡ reset_of register.now.reset))
        (λ fault. first_refusal (reset_checks register.now.width register.now.reset) ≡ Some fault) }
{
    match &register.reset {
        None => Ok(Bits::new(register.width as u8, 0)),
        Some(literal) => match read_literal(literal.at, literal.width, literal.value) {
            Ok(reset) => {
                if register.width == literal.width {
                    Ok(reset)
                } else {
                    Err(NameErr::WidthDiffers {
                        at: literal.at,
                        left: register.width,
                        right: literal.width,
                    })
                }
            }
            Err(fault) => Err(fault),
        },
    }
}

// A register after those of the table, which none of them is named as, or the first check of it that fails.
fn read_register(table: &RegisterTable, register: &Register) -> Result<CoreReg, NameErr>
    ensures { MatchResult result
        (λ read. (first_refusal (register_checks (names_of table.now) register.now) ≡ None)
        × (core.register_of read ≡ register_of register.now)
        × (read.reset.width ≡ read.width)
        × (list_any (is_register_named read.name) table.now ≡ false))
        (λ fault. first_refusal (register_checks (names_of table.now) register.now) ≡ Some fault) }
{
    if !is_good_name(register.name.bytes()) {
        return Err(NameErr::BadName { at: register.at });
    }
    if table.is_taken(&register.name) {
        return Err(NameErr::Twice { at: register.at });
    }
    if !is_width(register.width) {
        return Err(NameErr::BadWidth {
            at: register.width_at,
        });
    }
    match read_reset(register) {
        Ok(reset) => Ok(CoreReg {
            name: register.name.copy(),
            width: register.width as u8,
            reset,
        }),
        Err(fault) => Err(fault),
    }
}

/// The registers, in the order of the text.
pub fn read_registers(alloc: Global, registers: &[Register]) -> Result<RegisterTable, NameErr>
    requires { length registers.now ≤ most_registers }
    ensures { MatchResult result
        (λ table. RegistersRead registers.now table)
        (λ fault. RegistersFail registers.now fault) }
{
    let mut table = RegisterTable::new(alloc);
    for register in registers {
        match read_register(&table, register) {
            Ok(read) => match table.with(read) {
                Ok(more) => table = more,
                Err(_) => return Err(NameErr::NoMemory),
            },
            Err(fault) => {
                drop(table);
                return Err(fault);
            }
        }
    }
    Ok(table)
}
