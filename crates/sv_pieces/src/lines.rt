//! The lines that declare registers and nets, and the first line of a module.
ghost use Rattle.std.specs.Prelude.{◌≡◌, ◌≤◌, IfSome, List, MatchOption, None, Some};
ghost use Rattle.anvil_bits.specs.Number.{widest};
ghost use Rattle.sv_lines.specs.Lines.{declaration, label_of, labelled, numbered_label, opening};
ghost use Rattle.sv_pieces.specs.Seen as seen;

use crate::names::good_name;
use crate::pieces::{Run, after, cut, number_at, range_at, run_at};
use anvil_lexer::Name;
use std::alloc::Global;

/// What is declared: a register of the source, a state by its number, or a net by its number.
#[derive(Drop)]
pub enum Label {
    Source(Name),
    State(u64),
    Net(u64),
}

/// A declaration.
#[derive(Drop)]
pub struct Declared {
    pub width: u8,
    pub label: Label,
}

fn numbered_label(letter: &[u8], rest: &[u8]) -> Option<Label>
    ensures { MatchOption result
        (numbered_label letter.now rest.now ≡ None)
        (λ label. numbered_label letter.now rest.now ≡ Some (seen.label_of label)) }
{
    let Some((number, behind)) = number_at(rest) else {
        return None;
    };
    if behind != b"".as_slice() {
        return None;
    }
    if letter == b"s".as_slice() {
        Some(Label::State(number))
    } else if letter == b"n".as_slice() {
        Some(Label::Net(number))
    } else {
        None
    }
}

/// What the name of a register or a net says.
pub fn label_of(alloc: Global, text: &[u8]) -> Option<Label>
    ensures { MatchOption result
        (label_of text.now ≡ None)
        (λ label. label_of text.now ≡ Some (seen.label_of label)) }
{
    let Some((front, rest)) = cut(text) else {
        return None;
    };
    if rest == b"q".as_slice() {
        match good_name(alloc, front) {
            Some(name) => Some(Label::Source(name)),
            None => None,
        }
    } else {
        numbered_label(front, rest)
    }
}

fn labelled(alloc: Global, width: u8, rest: &[u8]) -> Option<Declared>
    ensures labelled { MatchOption result
        (labelled width rest.now ≡ None)
        (λ declared. labelled width rest.now ≡ Some (seen.declared_of declared)) }
    ensures width { IfSome result (λ declared. declared.width ≡ width) }
{
    let (name, behind) = run_at(Run::Name, rest);
    if behind == b";".as_slice() {
        match label_of(alloc, name) {
            Some(label) => Some(Declared { width, label }),
            None => None,
        }
    } else {
        None
    }
}

/// The declaration of a register or a net.
pub fn declaration(alloc: Global, line: &[u8]) -> Option<Declared>
    ensures declaration { MatchOption result
        (declaration line.now ≡ None)
        (λ declared. declaration line.now ≡ Some (seen.declared_of declared)) }
    ensures within { IfSome result (λ declared. (1 ≤ declared.width) × (declared.width ≤ widest)) }
{
    let Some(rest) = after(line, b"  logic [") else {
        return None;
    };
    let Some((width, rest)) = range_at(rest) else {
        return None;
    };
    labelled(alloc, width, rest)
}

/// The name in the first line of a module.
pub fn opening(alloc: Global, line: &[u8]) -> Option<Name>
    ensures { MatchOption result (opening line.now ≡ None) (λ name. opening line.now ≡ Some name) }
{
    let Some(rest) = after(line, b"module anvil__") else {
        return None;
    };
    let (name, behind) = run_at(Run::Name, rest);
    if behind == b" (".as_slice() {
        good_name(alloc, name)
    } else {
        None
    }
}
