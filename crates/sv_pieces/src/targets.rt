//! What stands behind the name of a register or of a port's wire that is given a value.
ghost use Rattle.std.specs.Prelude.{◌≡◌, MatchOption, None, Some};
ghost use Rattle.sv_lines.specs.Lines.{wire_word};
ghost use Rattle.sv_lines.specs.Step.{after_register, assigned, written};

use crate::pieces::{after, number_at};
use sv_lines::Wire;
use sv_tree::{SvPort, SvRegName};

fn after_register<'a>(name: &SvRegName, text: &'a [u8]) -> Option<&'a [u8]>
    ensures { MatchOption result
        (after_register name.now text.now ≡ None)
        (λ rest. after_register name.now text.now ≡ Some rest.now) }
{
    match name {
        SvRegName::Source(name) => match after(text, name.bytes()) {
            Some(rest) => after(rest, b"__q"),
            None => None,
        },
        SvRegName::State(number) => match after(text, b"s__") {
            Some(rest) => match number_at(rest) {
                Some((found, rest)) => if found == *number as u64 {
                    Some(rest)
                } else {
                    None
                },
                None => None,
            },
            None => None,
        },
    }
}

/// What is written behind `R <= `.
pub fn written<'a>(name: &SvRegName, line: &'a [u8]) -> Option<&'a [u8]>
    ensures { MatchOption result
        (written name.now line.now ≡ None)
        (λ rest. written name.now line.now ≡ Some rest.now) }
{
    let Some(rest) = after(line, b"      ") else {
        return None;
    };
    match after_register(name, rest) {
        Some(rest) => after(rest, b" <= "),
        None => None,
    }
}

fn wire_word(wire: Wire) -> &'static [u8]
    ensures { result.now ≡ wire_word wire }
{
    match wire {
        Wire::Data => b"data",
        Wire::Valid => b"valid",
        Wire::Ack => b"ack",
    }
}

/// What stands behind `assign E__M__W = `.
pub fn assigned<'a>(port: &SvPort, wire: Wire, line: &'a [u8]) -> Option<&'a [u8]>
    ensures { MatchOption result
        (assigned port.now wire line.now ≡ None)
        (λ rest. assigned port.now wire line.now ≡ Some rest.now) }
{
    let Some(rest) = after(line, b"  assign ") else {
        return None;
    };
    let Some(rest) = after(rest, port.endpoint.bytes()) else {
        return None;
    };
    let Some(rest) = after(rest, b"__") else {
        return None;
    };
    let Some(rest) = after(rest, port.message.bytes()) else {
        return None;
    };
    let Some(rest) = after(rest, b"__") else {
        return None;
    };
    let Some(rest) = after(rest, wire_word(wire)) else {
        return None;
    };
    after(rest, b" = ")
}
