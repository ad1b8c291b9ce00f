//! The fields of a line of a stimulus.
ghost use Rattle.std.specs.Prelude.{◌≡◌, ◌≤◌, ◌^◌, nat_lt, ◌++◌, ◌∷◌, [], IfOk, IsTrue, MatchOption, None, Some, map};
ghost use Rattle.std.specs.List.{list_all};
ghost use Rattle.core_term.specs.ProcessView.{port_of};
ghost use Rattle.core_term.specs.Sized.{port_fits};
ghost use Rattle.stim_text.specs.Fields.{field_at, gap_at, next_field, received_at, received_by, row_of, sent_at};

use crate::pieces::{after_byte, bit_at, number_at};
use anvil_bits::Bits;
use core_term::{CorePort, InCell, Row};
use std::alloc::{AllocError, Global};

fn fits(width: u8, number: u64) -> bool
    requires at_least { 1 ≤ width }
    requires at_most { width ≤ 64 }
    ensures { result ≡ nat_lt number (2 ^ width) }
{
    width == 64 || number < 1 << width
}

fn received_by(width: u8, valid: bool, number: u64, rest: &[u8]) -> Option<(InCell, &[u8])>
    requires at_least { 1 ≤ width }
    requires at_most { width ≤ 64 }
    ensures { MatchOption result (received_by width valid number rest.now ≡ None) (λ found. received_by width valid number rest.now ≡ Some (found.0, found.1.now)) }
{
    if fits(width, number) {
        let value = Bits::new(width, number);
        Some((InCell::Received { valid, value }, rest))
    } else {
        None
    }
}

/// The field of a received port: `V:D`.
fn received_at(width: u8, text: &[u8]) -> Option<(InCell, &[u8])>
    requires at_least { 1 ≤ width }
    requires at_most { width ≤ 64 }
    ensures { MatchOption result (received_at width text.now ≡ None) (λ found. received_at width text.now ≡ Some (found.0, found.1.now)) }
{
    let Some((valid, rest)) = bit_at(text) else {
        return None;
    };
    let Some(rest) = after_byte(b':', rest) else {
        return None;
    };
    let Some((number, rest)) = number_at(rest) else {
        return None;
    };
    received_by(width, valid, number, rest)
}

/// The field of a sent port: `A`.
fn sent_at(text: &[u8]) -> Option<(InCell, &[u8])>
    ensures { MatchOption result (sent_at text.now ≡ None) (λ found. sent_at text.now ≡ Some (found.0, found.1.now)) }
{
    match bit_at(text) {
        Some((ack, rest)) => Some((InCell::Sent { ack }, rest)),
        None => None,
    }
}

/// The field of a port, and what stands after it.
fn field_at<'a>(port: &CorePort, text: &'a [u8]) -> Option<(InCell, &'a [u8])>
    requires { IsTrue (port_fits (port_of port.now)) }
    ensures { MatchOption result (field_at port.now.received port.now.width text.now ≡ None) (λ found. field_at port.now.received port.now.width text.now ≡ Some (found.0, found.1.now)) }
{
    if port.received {
        received_at(port.width, text)
    } else {
        sent_at(text)
    }
}

/// What stands after the space before a field; no space stands before the first.
fn gap_at(first: bool, text: &[u8]) -> Option<&[u8]>
    ensures { MatchOption result (gap_at first text.now ≡ None) (λ rest. gap_at first text.now ≡ Some rest.now) }
{
    if first {
        Some(text)
    } else {
        after_byte(b' ', text)
    }
}

/// The field of a port with the space before it, and what stands after it.
fn next_field<'a>(port: &CorePort, first: bool, text: &'a [u8]) -> Option<(InCell, &'a [u8])>
    requires { IsTrue (port_fits (port_of port.now)) }
    ensures { MatchOption result (next_field (port_of port.now) first text.now ≡ None) (λ found. next_field (port_of port.now) first text.now ≡ Some (found.0, found.1.now)) }
{
    match gap_at(first, text) {
        Some(rest) => field_at(port, rest),
        None => None,
    }
}

/// The row that a line gives, or None where it gives none.
///
/// Refuses only where memory is refused.
pub fn read_row(alloc: Global, ports: &[CorePort], line: &[u8]) -> Result<Option<Row>, AllocError>
    requires { IsTrue (list_all port_fits (map port_of ports.now)) }
    ensures { IfOk result (λ found. MatchOption found (row_of (map port_of ports.now) line.now ≡ None) (λ row. row_of (map port_of ports.now) line.now ≡ Some row.cells.items)) }
{
    let mut cells = Vec::new(alloc);
    let mut rest = line;
    for index in 0..ports.len() {
        match next_field(&ports[index], index == 0, rest) {
            Some((cell, behind)) => {
                cells.push(cell)?;
                rest = behind;
            }
            None => return Ok(None),
        }
    }
    if rest.is_empty() {
        Ok(Some(Row { cells }))
    } else {
        Ok(None)
    }
}
