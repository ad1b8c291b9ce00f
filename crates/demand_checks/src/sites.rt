//! Sites by the number of a register or a port.
ghost use Rattle.std.specs.Prelude.{◌≡◌, ◌<◌, ◌≤◌, ◌++◌, ◌∷◌, [], ℕ, List, map, length, IfOk, Some};
ghost use Rattle.core_term.specs.Lists.{Has};
ghost use Rattle.demand_checks.specs.Sites.{is_number, places_from, port_of, register_of, row_of, sites_on, sites_setting};

use crate::Deed;
use std::alloc::{AllocError, Global};
use std::marker::Model;

/// Rows of sites by number. Contracts see them as the list of the rows.
#[derive(Drop)]
pub struct Sites {
    rows: Vec<Vec<u32>>,
}

impl Model for Sites {
    ghost use Rattle.std.specs.Prelude.{List, ℕ, map};

    ghost Value = { List (List ℕ) };

    ghost view = { λ sites. map (λ row. row.items) sites.rows.items };
}

impl Sites {
    /// The sites that set each register.
    ///
    /// Refuses only where memory is refused.
    pub fn setting(alloc: Global, deeds: &[Deed]) -> Result<Sites, AllocError>
        requires { length deeds.now ≤ 512 }
        ensures { IfOk result (λ sites. (r : ℕ) → row_of sites r ≡ sites_setting deeds.now r) }
    {
        let mut numbers = Vec::new(alloc);
        for deed in deeds {
            numbers.push(register_of(*deed))?;
        }
        let sites = Sites::by_number(alloc, &numbers)?;
        Ok(sites)
    }

    /// The sites on each port.
    ///
    /// Refuses only where memory is refused.
    pub fn on_ports(alloc: Global, deeds: &[Deed]) -> Result<Sites, AllocError>
        requires { length deeds.now ≤ 512 }
        ensures { IfOk result (λ sites. (m : ℕ) → row_of sites m ≡ sites_on deeds.now m) }
    {
        let mut numbers = Vec::new(alloc);
        for deed in deeds {
            numbers.push(port_of(*deed))?;
        }
        let sites = Sites::by_number(alloc, &numbers)?;
        Ok(sites)
    }

    /// The places of each number.
    fn by_number(alloc: Global, numbers: &[Option<u32>]) -> Result<Sites, AllocError>
        requires { length numbers.now ≤ 512 }
        ensures { IfOk result (λ sites. (number : ℕ) → row_of sites number ≡ places_from number 0 numbers.now) }
    {
        let mut rows = Vec::new(alloc);
        for number in 0..bound(numbers) {
            rows.push(places_of(alloc, number, numbers)?)?;
        }
        Ok(Sites { rows })
    }

    /// The sites of a number.
    pub fn row(&self, number: u32) -> &[u32]
        ensures { result.now ≡ row_of self.now number }
    {
        match self.rows.get(number as usize) {
            Some(row) => row.as_slice(),
            None => &[],
        }
    }
}

/// The register that an act sets.
fn register_of(deed: Deed) -> Option<u32>
    ensures { result ≡ register_of deed }
{
    match deed {
        Deed::Sets(reg) => Some(reg),
        _ => None,
    }
}

/// The port that an act is on.
fn port_of(deed: Deed) -> Option<u32>
    ensures { result ≡ port_of deed }
{
    match deed {
        Deed::Sends(port) | Deed::Receives(port) => Some(port),
        _ => None,
    }
}

/// A number that is greater than all of these. Those of a process are below the count of its registers or ports.
fn bound(numbers: &[Option<u32>]) -> usize
    ensures { (number : ℕ) → Has numbers.now (Some number) → number < result }
{
    let mut bound = 0;
    for number in numbers {
        if let Some(number) = number {
            bound = (*number as usize + 1).max(bound);
        }
    }
    bound
}

/// The places of a number in a list.
fn places_of(alloc: Global, number: usize, numbers: &[Option<u32>]) -> Result<Vec<u32>, AllocError>
    requires { length numbers.now ≤ 512 }
    ensures { IfOk result (λ places. places.items ≡ places_from number 0 numbers.now) }
{
    let mut places = Vec::new(alloc);
    for place in 0..numbers.len() {
        if is_number(number, numbers[place]) {
            places.push(place as u32)?;
        }
    }
    Ok(places)
}

/// Whether this is the number.
fn is_number(number: usize, one: Option<u32>) -> bool
    ensures { result ≡ is_number number one }
{
    match one {
        Some(other) => other as usize == number,
        None => false,
    }
}
