//! The lines of a module's header.
ghost use Rattle.std.specs.Prelude.{◌≡◌, ◌+◌, ◌<◌, ◌^◌, ◌&&◌, not, true, bytes_eq, MatchResult};
ghost use Rattle.sv_lines.specs.declared.wire.Wire.TheVariants.{Ack};
ghost use Rattle.sv_lines.specs.State.{with_port};
ghost use Rattle.sv_lines.specs.Step.{ack_step, header_wanted, is_wire_of, may_add, may_end, port_of, port_step, reset_step, valid_step};
ghost use Rattle.sv_pieces.specs.Seen.{wire_line_of};
ghost use Rattle.sv_draft.specs.SeenDraft.{draft_of};
ghost use Rattle.sv_draft.specs.declared.fault.Fault.TheVariants.{NoMemory};
ghost use Rattle.sv_draft.specs.Reached.{IsFixed, IsReading, reached_of, wanted_of};

use crate::draft::Draft;
use crate::fault::Fault;
use crate::room::has_room;
use crate::wanted::{Reached, Wanted};
use std::alloc::Global;
use sv_lines::Wire;
use sv_pieces::{WireLine, after, comma_of, is_data, is_wire_of, port_of, wire_line};

/// A line that is always the same.
pub fn fixed(line: &[u8], wanted: &[u8]) -> Result<(), Fault>
    ensures { IsFixed (bytes_eq line.now wanted.now) result }
{
    if line == wanted {
        Ok(())
    } else {
        Err(Fault::CannotStand)
    }
}

fn header_wanted<'a>(comma: bool) -> Wanted<'a>
    ensures { wanted_of result ≡ header_wanted comma }
{
    if comma { Wanted::Port } else { Wanted::Closing }
}

/// The line of the reset.
pub fn reset_step<'a>(draft: &Draft, line: &'a [u8]) -> Result<Reached<'a>, Fault>
    ensures { IsReading (reached_of draft.now) (reset_step (draft_of draft.now) line.now) result }
{
    let Some(rest) = after(line, b"  input logic rst_ni") else {
        return Err(Fault::CannotStand);
    };
    match comma_of(rest) {
        Some(comma) => Ok(Reached::Onward(header_wanted(comma))),
        None => Err(Fault::CannotStand),
    }
}

// Whether a port with these names may follow the others.
fn may_add(alloc: Global, draft: &Draft, line: &WireLine) -> bool
    ensures { result ≡ may_add (draft_of draft.now) (port_of (wire_line_of line.now)) }
{
    match port_of(alloc, line) {
        Some(port) => draft.ports.may_add(&port),
        None => false,
    }
}

/// The `data` line of a port.
pub fn port_step<'a>(alloc: Global, draft: &Draft, line: &'a [u8]) -> Result<Reached<'a>, Fault>
    ensures { IsReading (reached_of draft.now) (port_step (draft_of draft.now) line.now) result }
{
    let Some(parts) = wire_line(line) else {
        return Err(Fault::CannotStand);
    };
    if is_data(&parts) && may_add(alloc, draft, &parts) {
        Ok(Reached::Onward(Wanted::Valid(parts)))
    } else {
        Err(Fault::CannotStand)
    }
}

/// The `valid` line of a port.
pub fn valid_step<'a>(
    draft: &Draft,
    port: &WireLine<'a>,
    line: &'a [u8],
) -> Result<Reached<'a>, Fault>
    ensures { IsReading
        (reached_of draft.now)
        (valid_step (draft_of draft.now) (port_of (wire_line_of port.now)) line.now)
        result }
{
    let Some(parts) = wire_line(line) else {
        return Err(Fault::CannotStand);
    };
    if is_wire_of(port, Wire::Valid, port.comes_in, &parts) && parts.comma {
        Ok(Reached::Onward(Wanted::Ack(*port)))
    } else {
        Err(Fault::CannotStand)
    }
}

// Whether the header may go on behind so many ports: behind a comma there must be room for one more.
fn may_end(count: usize, comma: bool) -> bool
    ensures { result ≡ may_end count comma }
{
    if comma { has_room(count) } else { true }
}

// The module with the port.
fn add_port(alloc: Global, draft: &mut Draft, port: &WireLine) -> Result<(), Fault>
    requires { may_add (draft_of draft.old) (port_of (wire_line_of port.now)) ≡ true }
    ensures { MatchResult result
        (λ _. draft_of draft.new ≡ with_port (draft_of draft.old) (port_of (wire_line_of port.now)))
        (λ fault. fault ≡ NoMemory) }
{
    match port_of(alloc, port) {
        Some(port) => draft.add_port(port),
        None => unreachable!(),
    }
}

fn is_ack(count: usize, port: &WireLine, line: &WireLine) -> bool
    requires { count < 2 ^ 63 }
    ensures { result ≡
        (is_wire_of (port_of (wire_line_of port.now)) Ack (not port.now.comes_in) (wire_line_of line.now)
        && may_end (count + 1) line.now.comma) }
{
    is_wire_of(port, Wire::Ack, !port.comes_in, line) && may_end(count + 1, line.comma)
}

/// The `ack` line of a port, of which the `data` line said that it may stand.
pub fn ack_step<'a>(
    alloc: Global,
    draft: &mut Draft,
    port: &WireLine<'a>,
    line: &'a [u8],
) -> Result<Reached<'a>, Fault>
    requires { may_add (draft_of draft.old) (port_of (wire_line_of port.now)) ≡ true }
    ensures { IsReading
        (reached_of draft.new)
        (ack_step (draft_of draft.old) (port_of (wire_line_of port.now)) line.now)
        result }
{
    let Some(parts) = wire_line(line) else {
        return Err(Fault::CannotStand);
    };
    if is_ack(draft.ports.ports().len(), port, &parts) {
        match add_port(alloc, draft, port) {
            Ok(()) => Ok(Reached::Onward(header_wanted(parts.comma))),
            Err(fault) => Err(fault),
        }
    } else {
        Err(Fault::CannotStand)
    }
}
