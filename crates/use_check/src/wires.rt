//! Rule V6: a received value is used within each end of the life of its exchange.
ghost use Rattle.std.specs.Prelude.{◌<◌, length, map, IfOk};
ghost use Rattle.core_term.specs.ProcessView.{end_of_life};
ghost use Rattle.demand_checks.specs.Judge.{AreShown, IsJudge, IsShown, process_at};
ghost use Rattle.use_check.specs.Wires.{AreOnPorts, AreUnshownWires, end_claims, port_claims};
ghost use Rattle.use_check.specs.Wires.{received_claims, until_claim, wire_claims};

use demand_checks::{CoreLife, Deed, Judge, Pair, Place, Rest, Sites, SourceAtom};
use std::alloc::{AllocError, Global};

/// The records of the uses of received values that may go on past an end of the life.
///
/// Refuses only where memory is refused.
pub fn unshown_wires(
    alloc: Global,
    judge: &Judge<'_>,
    on_ports: &Sites,
    rests: &[Rest],
) -> Result<Vec<Pair>, AllocError>
    requires judge { IsJudge judge.now }
    requires sites { AreOnPorts judge.now.deeds.items on_ports.now }
    ensures { IfOk result (λ pairs. AreUnshownWires judge.now rests.now pairs.items) }
{
    let mut pairs = Vec::new(alloc);
    for rest in rests {
        if !wire_holds(judge, on_ports, *rest) {
            pairs.push(rest.pair())?;
        }
    }
    Ok(pairs)
}

/// Whether a use that rests on received data is over within each end of the life. True of every other use.
fn wire_holds(judge: &Judge<'_>, on_ports: &Sites, rest: Rest) -> bool
    requires judge { IsJudge judge.now }
    requires sites { AreOnPorts judge.now.deeds.items on_ports.now }
    ensures { AreShown judge.now (wire_claims (process_at judge.now) judge.now.deeds.items rest) result }
{
    match rest.atom {
        SourceAtom::Wire { site } => received_holds(
            judge,
            on_ports,
            judge.deed(site),
            rest.user,
            site,
        ),
        _ => true,
    }
}

/// Whether a use of what the act of a site received is over within each end of the life.
fn received_holds(judge: &Judge<'_>, on_ports: &Sites, deed: Deed, user: u32, site: u32) -> bool
    requires judge { IsJudge judge.now }
    requires sites { AreOnPorts judge.now.deeds.items on_ports.now }
    ensures { AreShown judge.now (received_claims (process_at judge.now) judge.now.deeds.items user site deed) result }
{
    match deed {
        Deed::Receives(port) => {
            if port as usize >= judge.proc.ports.len() {
                return true;
            }
            ends_hold(judge, on_ports, port, user, site)
        }
        _ => true,
    }
}

/// The same of the ends of the life of a port.
fn ends_hold(judge: &Judge<'_>, on_ports: &Sites, port: u32, user: u32, site: u32) -> bool
    requires judge { IsJudge judge.now }
    requires sites { AreOnPorts judge.now.deeds.items on_ports.now }
    requires port { port < length judge.now.proc.now.ports.items }
    ensures { AreShown judge.now (port_claims judge.now port user site) result }
{
    for index in 0..judge.proc.end_count(port) {
        if !end_holds(judge, on_ports, judge.proc.end(port, index), user, site) {
            return false;
        }
    }
    true
}

/// Whether a use of what the act of a site received is over within one end of the life.
fn end_holds(judge: &Judge<'_>, on_ports: &Sites, end: CoreLife, user: u32, site: u32) -> bool
    requires judge { IsJudge judge.now }
    requires sites { AreOnPorts judge.now.deeds.items on_ports.now }
    ensures { AreShown judge.now (end_claims judge.now.deeds.items user site (end_of_life end)) result }
{
    match end {
        CoreLife::Cycles(cycles) => judge.used_by(user, 1 - i32::from(cycles), Place::end_of(site)),
        CoreLife::Until(port) => untils_hold(judge, on_ports.row(port), user, site),
    }
}

/// Whether a use of what the act of a site received is over by the exchange of each of these acts.
fn untils_hold(judge: &Judge<'_>, acts: &[u32], user: u32, site: u32) -> bool
    requires { IsJudge judge.now }
    ensures { AreShown judge.now (map (until_claim judge.now.deeds.items user site) acts.now) result }
{
    for act in acts {
        if !until_holds(judge, *act, user, site) {
            return false;
        }
    }
    true
}

/// Whether a use is over as it is received, or else by the end of an act that comes after, in this turn and in the next.
fn until_holds(judge: &Judge<'_>, act: u32, user: u32, site: u32) -> bool
    requires { IsJudge judge.now }
    ensures { IsShown judge.now (until_claim judge.now.deeds.items user site act) result }
{
    let received = Place::end_of(site);
    judge.used_by(user, 0, received)
        || ((judge.precedes(Place::end_of(act), 1, received)
            || judge.used_by(user, 0, Place::end_of(act)))
            && judge.used_by(user, 0, Place::next_end_of(act)))
}
