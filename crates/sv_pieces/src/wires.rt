//! The lines of a port in the header, one for each of its wires.
ghost use Rattle.std.specs.Prelude.{◌≡◌, false, MatchOption, None, Some};
ghost use Rattle.sv_tree.specs.WellFormed.{is_port_name};
ghost use Rattle.sv_lines.specs.Lines.{comma_of, direction_at, named_wire, wire_end, wire_line, wire_of};
ghost use Rattle.sv_lines.specs.Step.{is_data, is_wire_of, port_of};
ghost use Rattle.sv_pieces.specs.Seen.{wire_line_of};

use crate::names::good_name;
use crate::pieces::{Run, after, cut, range_at, run_at};
use std::alloc::Global;
use sv_lines::Wire;
use sv_tree::SvPort;

/// A line of the header.
#[derive(Clone, Copy)]
pub struct WireLine<'a> {
    pub comes_in: bool,
    pub width: u8,
    pub endpoint: &'a [u8],
    pub message: &'a [u8],
    pub wire: Wire,
    pub comma: bool,
}

/// The wire of this word.
pub fn wire_of(word: &[u8]) -> Option<Wire>
    ensures { result ≡ wire_of word.now }
{
    if word == b"data".as_slice() {
        Some(Wire::Data)
    } else if word == b"valid".as_slice() {
        Some(Wire::Valid)
    } else if word == b"ack".as_slice() {
        Some(Wire::Ack)
    } else {
        None
    }
}

/// Whether a comma is all that is left, or nothing.
pub fn comma_of(rest: &[u8]) -> Option<bool>
    ensures { result ≡ comma_of rest.now }
{
    if rest == b"".as_slice() {
        Some(false)
    } else if rest == b",".as_slice() {
        Some(true)
    } else {
        None
    }
}

fn direction_at(line: &[u8]) -> Option<(bool, &[u8])>
    ensures { MatchOption result
        (direction_at line.now ≡ None)
        (λ way. direction_at line.now ≡ Some (way.0, way.1.now)) }
{
    match after(line, b"  input logic [") {
        Some(rest) => Some((true, rest)),
        None => match after(line, b"  output logic [") {
            Some(rest) => Some((false, rest)),
            None => None,
        },
    }
}

fn wire_end(rest: &[u8]) -> Option<(Wire, bool)>
    ensures { result ≡ wire_end rest.now }
{
    let (word, behind) = run_at(Run::Name, rest);
    let Some(wire) = wire_of(word) else {
        return None;
    };
    let Some(comma) = comma_of(behind) else {
        return None;
    };
    Some((wire, comma))
}

fn named_wire(comes_in: bool, width: u8, rest: &[u8]) -> Option<WireLine>
    ensures { MatchOption result
        (named_wire comes_in width rest.now ≡ None)
        (λ line. named_wire comes_in width rest.now ≡ Some (wire_line_of line)) }
{
    let Some((endpoint, rest)) = cut(rest) else {
        return None;
    };
    let Some((message, rest)) = cut(rest) else {
        return None;
    };
    let Some((wire, comma)) = wire_end(rest) else {
        return None;
    };
    Some(WireLine {
        comes_in,
        width,
        endpoint,
        message,
        wire,
        comma,
    })
}

/// A line of the header.
pub fn wire_line(line: &[u8]) -> Option<WireLine>
    ensures { MatchOption result
        (wire_line line.now ≡ None)
        (λ parts. wire_line line.now ≡ Some (wire_line_of parts)) }
{
    let Some((comes_in, rest)) = direction_at(line) else {
        return None;
    };
    let Some((width, rest)) = range_at(rest) else {
        return None;
    };
    named_wire(comes_in, width, rest)
}

/// Whether the line begins a port.
pub fn is_data(line: &WireLine) -> bool
    ensures { result ≡ is_data (wire_line_of line.now) }
{
    line.wire == Wire::Data && line.comma
}

/// Whether it is a line for this wire of the port that another line begins, of one bit.
pub fn is_wire_of(port: &WireLine, wire: Wire, comes_in: bool, line: &WireLine) -> bool
    ensures { result ≡ is_wire_of (port_of (wire_line_of port.now)) wire comes_in (wire_line_of line.now) }
{
    line.wire == wire
        && line.comes_in == comes_in
        && line.width == 1
        && line.endpoint == port.endpoint
        && line.message == port.message
}

/// The port that the line begins, where its names may stand in a module.
pub fn port_of(alloc: Global, line: &WireLine) -> Option<SvPort>
    ensures { MatchOption result
        (is_port_name (port_of (wire_line_of line.now)) ≡ false)
        (λ port. port ≡ port_of (wire_line_of line.now)) }
{
    let Some(endpoint) = good_name(alloc, line.endpoint) else {
        return None;
    };
    let Some(message) = good_name(alloc, line.message) else {
        return None;
    };
    Some(SvPort {
        endpoint,
        message,
        received: line.comes_in,
        width: line.width,
    })
}
