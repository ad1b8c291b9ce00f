//! The words of the command line, and the forms of the commands.
ghost use Rattle.std.specs.Prelude.{◌≡◌, IfOk, IfSome};
ghost use Rattle.std.specs.List.{list_all};
ghost use Rattle.std.specs.Option.{option_map};
ghost use Rattle.clap.specs.Words.{first_of, found_of, rows_of, subcommand_rows_of};
ghost use Rattle.command_words.specs.Form.{check, compile, form_of, gen, is_operand, number_of, run, runsv, words_of};
ghost use Rattle.command_words.specs.Matched.{form_in, form_matched};
ghost use Rattle.command_words.specs.Seen.{HasNumber, form_seen};

use crate::matcher::matcher;
use clap::ArgMatches;
use clap::error::ErrorKind;
use itoa::Buffer;
use std::alloc::{AllocError, Global};

/// A command with its operands.
#[derive(Clone, Copy)]
pub enum Command<'a> {
    /// `check FILE`.
    Check {
        file: &'a str,
    },
    /// `compile FILE`.
    Compile {
        file: &'a str,
    },
    /// `run FILE PROC STIM`.
    Run {
        file: &'a str,
        process: &'a str,
        stimulus: &'a str,
    },
    /// `runsv FILE SV PROC STIM`.
    RunModule {
        file: &'a str,
        text: &'a str,
        process: &'a str,
        stimulus: &'a str,
    },
    /// `gen NUMBER`, of a number from 1 to 64.
    Generate {
        count: u32,
    },
}

/// The greatest number of `gen`.
const MOST_NUMBER: u32 = 64;

/// The form that words have, if they have one. It fails only for want of memory.
pub fn form_of(alloc: Global, words: &[String]) -> Result<Option<Command<'_>>, AllocError>
    ensures form { IfOk result (λ read. option_map form_seen read ≡ form_of (words_of words.now)) }
    ensures number { IfOk result (λ read. IfSome read HasNumber) }
{
    if !all_operands(words) {
        return Ok(None);
    }
    match matcher(alloc)?.try_get_matches_from(words) {
        Ok(matches) => Ok(command_in(&matches)),
        Err(error) => match error.kind() {
            ErrorKind::OutOfMemory => Err(AllocError),
            _ => Ok(None),
        },
    }
}

// Whether each word may stand for an operand: it is not empty and does not begin with `-`.
fn all_operands(words: &[String]) -> bool
    ensures { result ≡ list_all is_operand (words_of words.now) }
{
    words.iter().all(|word| is_operand(word.as_bytes()))
}

fn is_operand(word: &[u8]) -> bool
    ensures { result ≡ is_operand word.now }
{
    match word {
        [] => false,
        [first, ..] => *first != b'-',
    }
}

// The command that was matched.
fn command_in<'a>(matches: &ArgMatches<'a>) -> Option<Command<'a>>
    ensures form { option_map form_seen result ≡ form_matched (subcommand_rows_of matches.now) }
    ensures number { IfSome result HasNumber }
{
    let (name, operands) = matches.subcommand()?;
    if name == "check" {
        check_in(operands)
    } else if name == "compile" {
        compile_in(operands)
    } else if name == "run" {
        run_in(operands)
    } else if name == "runsv" {
        run_module_in(operands)
    } else if name == "gen" {
        generate_in(operands)
    } else {
        None
    }
}

fn check_in<'a>(operands: &ArgMatches<'a>) -> Option<Command<'a>>
    ensures form { option_map form_seen result ≡ form_in check (rows_of (found_of operands.now)) }
    ensures number { IfSome result HasNumber }
{
    let file = operand_in(operands, "FILE")?;
    Some(Command::Check { file })
}

fn compile_in<'a>(operands: &ArgMatches<'a>) -> Option<Command<'a>>
    ensures form { option_map form_seen result ≡ form_in compile (rows_of (found_of operands.now)) }
    ensures number { IfSome result HasNumber }
{
    let file = operand_in(operands, "FILE")?;
    Some(Command::Compile { file })
}

fn run_in<'a>(operands: &ArgMatches<'a>) -> Option<Command<'a>>
    ensures form { option_map form_seen result ≡ form_in run (rows_of (found_of operands.now)) }
    ensures number { IfSome result HasNumber }
{
    let file = operand_in(operands, "FILE")?;
    let process = operand_in(operands, "PROC")?;
    let stimulus = operand_in(operands, "STIM")?;
    Some(Command::Run {
        file,
        process,
        stimulus,
    })
}

fn run_module_in<'a>(operands: &ArgMatches<'a>) -> Option<Command<'a>>
    ensures form { option_map form_seen result ≡ form_in runsv (rows_of (found_of operands.now)) }
    ensures number { IfSome result HasNumber }
{
    let file = operand_in(operands, "FILE")?;
    let text = operand_in(operands, "SV")?;
    let process = operand_in(operands, "PROC")?;
    let stimulus = operand_in(operands, "STIM")?;
    Some(Command::RunModule {
        file,
        text,
        process,
        stimulus,
    })
}

fn generate_in<'a>(operands: &ArgMatches<'a>) -> Option<Command<'a>>
    ensures form { option_map form_seen result ≡ form_in gen (rows_of (found_of operands.now)) }
    ensures number { IfSome result HasNumber }
{
    let word = operand_in(operands, "NUMBER")?;
    let count = number_of(word.as_bytes())?;
    Some(Command::Generate { count })
}

// The number from 1 to 64 that a word is in decimal, without leading zeros.
fn number_of(word: &[u8]) -> Option<u32>
    ensures { result ≡ number_of word.now }
{
    for number in 1..MOST_NUMBER + 1 {
        if Buffer::new().format(number).as_bytes() == word {
            return Some(number);
        }
    }
    None
}

// The word that stands for a part.
fn operand_in<'a>(operands: &ArgMatches<'a>, label: &str) -> Option<&'a str>
    ensures { option_map (λ word. word.now) result ≡ first_of label.now (rows_of (found_of operands.now)) }
{
    operands.get_str(label)
}
