//! The endpoints of a process with the ports that their classes make, or the first check of them that fails.
ghost use Rattle.std.specs.Prelude.{◌≡◌, ◌+◌, ◌≤◌, ◌++◌, ◌<◌, None, Some, true, false, length, map, MatchOption, MatchResult, OnOk, slice_get};
ghost use Rattle.std.specs.List.{AllByRecursion};
ghost use Rattle.core_term.specs.Limits.{most_ports};
ghost use Rattle.core_term.specs.ProcessView as core;
ghost use Rattle.channel_classes.specs.Classes.{Class};
ghost use Rattle.core_file.specs.CoreProcess.{is_toward, life_of, messages_in, port_of};
ghost use Rattle.core_file.specs.ProcessChecks.{is_known_class};
ghost use Rattle.width_check.specs.ReadEndpoints.{EndsWithin, EndpointRead, EndpointFails, EndpointsRead, EndpointsFail};

use anvil_lexer::{Name, is_good_name};
use anvil_tree::{Endpoint, Side};
use channel_classes::{ClassLife, ClassMessage, Classes};
use core_file::NameErr;
use core_term::{CoreLife, CorePort};
use expr_check::PortTable;
use indexmap::IndexSet;
use std::alloc::{AllocError, Global};

/// The most ports of a process.
const MOST_PORTS: usize = 64;

// The messages of the class of a name.
fn find_messages<'a>(classes: &'a Classes, name: &Name) -> Option<&'a [ClassMessage]>
    ensures { MatchOption result
        (is_known_class classes.now name.now ≡ false)
        (λ messages. (is_known_class classes.now name.now ≡ true) × (messages.now ≡ messages_in classes.now name.now)) }
{
    match classes.find(name) {
        None => None,
        Some(class) => Some(classes.messages(class)),
    }
}

fn is_toward(toward: Side, side: Side) -> bool
    ensures { result ≡ is_toward toward side }
{
    match (toward, side) {
        (Side::Left, Side::Left) | (Side::Right, Side::Right) => true,
        (Side::Left, Side::Right) | (Side::Right, Side::Left) => false,
    }
}

// A port of an endpoint, whose ports begin with the number `base`.
fn port(endpoint: &Endpoint, base: u32, message: &ClassMessage) -> CorePort
    requires few { base ≤ most_ports }
    requires within { EndsWithin message.now }
    ensures { core.port_of result ≡ port_of endpoint.now base message.now }
{
    let life = match message.life {
        ClassLife::Cycles(count) => CoreLife::Cycles(count),
        ClassLife::Until(number) => CoreLife::Until(base + number),
    };
    CorePort {
        endpoint: endpoint.name.copy(),
        message: message.name.copy(),
        received: is_toward(message.toward, endpoint.side),
        width: message.width,
        life,
    }
}

// Puts the ports of an endpoint behind the others.
fn push_ports(
    endpoint: &Endpoint,
    messages: &[ClassMessage],
    table: &mut PortTable,
) -> Result<(), AllocError>
    requires room { length table.old + length messages.now ≤ most_ports }
    requires within { AllByRecursion EndsWithin messages.now }
    ensures { OnOk result
        (map core.port_of table.new ≡ map core.port_of table.old ++ map (port_of endpoint.now (length table.old)) messages.now) }
{
    let base = table.ports().len() as u32;
    for message in messages {
        table.push(port(endpoint, base, message))?;
    }
    Ok(())
}

// An endpoint behind those of the names, whose ports are in the table, or the first check of it that fails.
fn read_endpoint(
    endpoint: &Endpoint,
    classes: &Classes,
    names: &IndexSet<Name>,
    table: &mut PortTable,
) -> Result<(), NameErr>
    requires { AllByRecursion (λ (known : Class). AllByRecursion EndsWithin known.messages) classes.now }
    ensures { MatchResult result
        (λ _. EndpointRead classes.now names.now.keys table.old endpoint.now table.new)
        (λ fault. EndpointFails classes.now names.now.keys (length table.old) endpoint.now fault) }
{
    if !is_good_name(endpoint.name.bytes()) {
        return Err(NameErr::BadName { at: endpoint.at });
    }
    if names.contains(&endpoint.name) {
        return Err(NameErr::Twice { at: endpoint.at });
    }
    match find_messages(classes, &endpoint.class) {
        None => Err(NameErr::Unknown {
            at: endpoint.class_at,
        }),
        Some(messages) => {
            if table.ports().len() + messages.len() > MOST_PORTS {
                return Err(NameErr::TooManyPorts { at: endpoint.at });
            }
            match push_ports(endpoint, messages, table) {
                Ok(()) => Ok(()),
                Err(_) => Err(NameErr::NoMemory),
            }
        }
    }
}

/// The endpoints by name, and their ports.
pub fn read_endpoints(
    alloc: Global,
    endpoints: &[Endpoint],
    classes: &Classes,
) -> Result<(IndexSet<Name>, PortTable), NameErr>
    requires { AllByRecursion (λ (known : Class). AllByRecursion EndsWithin known.messages) classes.now }
    ensures { MatchResult result
        (λ read. EndpointsRead classes.now endpoints.now read.0.keys read.1)
        (λ fault. EndpointsFail classes.now endpoints.now fault) }
{
    let mut names = IndexSet::new(alloc);
    let mut table = PortTable::new(alloc);
    for endpoint in endpoints {
        match read_endpoint(endpoint, classes, &names, &mut table) {
            Ok(()) => match names.insert(endpoint.name.copy()) {
                Ok(_) => {}
                Err(_) => {
                    drop((names, table));
                    return Err(NameErr::NoMemory);
                }
            },
            Err(fault) => {
                drop((names, table));
                return Err(fault);
            }
        }
    }
    Ok((names, table))
}
