//! The refusal that a fault of a stage is.
ghost use Rattle.std.specs.Prelude.{◌≡◌};
ghost use Rattle.checked_files.specs.Refused.{code_of, of_classes, of_lexer, of_parser, of_processes};

use anvil_lexer::LexErr;
use anvil_parser::ParseErr;
use channel_classes::ClassErr;
use core_term::Rule;
use tool_answers::{Code, Refusal};
use width_check::NameErr;

/// A fault of the lexer.
pub(crate) fn of_lexer(fault: &LexErr) -> Refusal
    ensures { result ≡ of_lexer fault.now }
{
    let (code, at) = match fault {
        LexErr::NotUtf8 { at } => (Code::NotUtf8, *at),
        LexErr::BadChar { at } => (Code::BadChar, *at),
        LexErr::BadNumber { at } => (Code::BadNumber, *at),
        LexErr::LongName { at } => (Code::LongName, *at),
        LexErr::NoMemory => return Refusal::NoMemory,
    };
    Refusal::Placed { code, at }
}

/// A refusal of the parser.
pub(crate) fn of_parser(fault: &ParseErr) -> Refusal
    ensures { result ≡ of_parser fault.now }
{
    let (code, at) = match fault {
        ParseErr::Unexpected { at } => (Code::Unexpected, *at),
        ParseErr::TooDeep { at } => (Code::TooDeep, *at),
        ParseErr::TooMany { at, .. } => (Code::TooMany, *at),
        ParseErr::NoMemory => return Refusal::NoMemory,
    };
    Refusal::Placed { code, at }
}

/// The first check of the classes of a file that fails.
pub(crate) fn of_classes(fault: &ClassErr) -> Refusal
    ensures { result ≡ of_classes fault.now }
{
    let (code, at) = match fault {
        ClassErr::BadName { at } => (Code::BadName, *at),
        ClassErr::Twice { at } => (Code::Twice, *at),
        ClassErr::BadWidth { at } => (Code::BadWidth, *at),
        ClassErr::BadCount { at } => (Code::BadCount, *at),
        ClassErr::OwnLife { at } => (Code::OwnLife, *at),
        ClassErr::NoSuchLife { at } => (Code::NoSuchLife, *at),
        ClassErr::NoMemory => return Refusal::NoMemory,
    };
    Refusal::Placed { code, at }
}

/// The first check of the processes of a file that fails.
pub(crate) fn of_processes(fault: &NameErr) -> Refusal
    ensures { result ≡ of_processes fault.now }
{
    let (code, at) = match fault {
        NameErr::BadName { at } => (Code::BadName, *at),
        NameErr::Twice { at } => (Code::Twice, *at),
        NameErr::Unknown { at } => (Code::Unknown, *at),
        NameErr::TooManyPorts { at } => (Code::TooManyPorts, *at),
        NameErr::BadWidth { at } => (Code::BadWidth, *at),
        NameErr::BadCount { at } => (Code::BadCount, *at),
        NameErr::LiteralTooLarge { at } => (Code::LiteralTooLarge, *at),
        NameErr::WidthDiffers { at, .. } => (Code::WidthDiffers, *at),
        NameErr::UnitUsed { at } => (Code::UnitUsed, *at),
        NameErr::WrongSide { at } => (Code::WrongSide, *at),
        NameErr::EndpointShared { at } => (Code::EndpointShared, *at),
        NameErr::RegisterShared { at } => (Code::RegisterShared, *at),
        NameErr::NotTail { at } => (Code::NotTail, *at),
        NameErr::NoMemory => return Refusal::NoMemory,
    };
    Refusal::Placed { code, at }
}

/// The code of a timing rule.
pub(crate) fn code_of(rule: Rule) -> Code
    ensures { result ≡ code_of rule }
{
    match rule {
        Rule::V2 => Code::V2,
        Rule::V3 => Code::V3,
        Rule::V4 => Code::V4,
        Rule::V5 => Code::V5,
        Rule::V6 => Code::V6,
        Rule::V7 => Code::V7,
        Rule::V8 => Code::V8,
    }
}
