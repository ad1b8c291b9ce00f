//! The sites of the acts on a port.
ghost use Rattle.std.specs.Prelude.{◌≡◌, ◌++◌, IfOk};
ghost use Rattle.core_term.specs.Widths.{Widths};
ghost use Rattle.core_term.specs.View.{term_of};
ghost use Rattle.event_points.specs.Endings.{sites_on};
ghost use Rattle.life_tables.specs.Sites.{AreSites, kind_sites, port_sites, site_on};

use core_term::{CoreAct, CoreKind, CoreTerm, CoreThread};
use std::alloc::{AllocError, Global};

/// The sites of the acts of a thread on a port, in text order.
///
/// Refuses only where memory is refused.
pub fn port_sites(alloc: Global, thread: &CoreThread, port: u32) -> Result<Vec<u32>, AllocError>
    ensures same { IfOk result (λ sites. (widths : Widths) → sites.items ≡ sites_on port (term_of widths thread.now)) }
    ensures inside { IfOk result (λ sites. (widths : Widths) → AreSites (term_of widths thread.now) sites.items) }
{
    let mut sites = Vec::new(alloc);
    add_sites(thread.body(), port, &mut sites)?;
    Ok(sites)
}

/// Adds the sites of a term at the end of `sites`.
#[cycle(sites)]
fn add_sites(term: &CoreTerm, port: u32, sites: &mut Vec<u32>) -> Result<(), AllocError>
    ensures { IfOk result (λ _. sites.new.items ≡ sites.old.items ++ port_sites port term.now) }
{
    match term {
        CoreTerm::One(act) => add_act_sites(act, port, sites),
        CoreTerm::Then(act, rest) | CoreTerm::Both(act, rest) => {
            add_act_sites(act, port, sites)?;
            add_sites(rest, port, sites)
        }
    }
}

/// Adds the site of an act on the port, or those of the acts inside it.
#[cycle(sites)]
fn add_act_sites(act: &CoreAct, port: u32, sites: &mut Vec<u32>) -> Result<(), AllocError>
    ensures { IfOk result (λ _. sites.new.items ≡ sites.old.items ++ kind_sites port act.now.site act.now.kind) }
{
    match &act.kind {
        CoreKind::Send { port: named, .. } => add_site(act.site, *named, port, sites),
        CoreKind::Recv { port: named } => add_site(act.site, *named, port, sites),
        CoreKind::If { yes, no, .. } => {
            add_sites(yes, port, sites)?;
            match no {
                None => Ok(()),
                Some(other) => add_sites(other, port, sites),
            }
        }
        CoreKind::Block(inner) => add_sites(inner, port, sites),
        _ => Ok(()),
    }
}

/// Adds the site of an act on the port `named`, where that is the port.
fn add_site(site: u32, named: u32, port: u32, sites: &mut Vec<u32>) -> Result<(), AllocError>
    ensures { IfOk result (λ _. sites.new.items ≡ sites.old.items ++ site_on port named site) }
{
    if named == port {
        sites.push(site)?;
    }
    Ok(())
}
