//! The tables of the lives of what a thread sends, under the sites of the acts that send.
ghost use Rattle.std.specs.Prelude.{◌≡◌, ◌<◌, ◌^◌, ℕ, length, None, Some, IsSome, OnErr, OnOk};
ghost use Rattle.event_graph.specs.Forms.{delays};
ghost use Rattle.event_order.specs.Order.{IsOrderOf};
ghost use Rattle.lifetimes.specs.Ends.{endings_of};
ghost use Rattle.lifetimes.specs.Lasts.{HasTableOf, table_of};

use crate::{EndTable, Life};
use event_graph::Graph;
use event_order::Order;
use std::alloc::{AllocError, Global};
use std::collections::BTreeMap;

/// Tables of lives, at most one a site.
#[derive(Drop)]
pub struct Lasts {
    alloc: Global,
    tables: BTreeMap<u32, EndTable>,
}

impl Lasts {
    /// No tables. It takes no memory.
    pub fn new(alloc: Global) -> Lasts
        ensures { (site : ℕ) → table_of result site ≡ None }
    {
        Lasts {
            alloc,
            tables: BTreeMap::new(alloc),
        }
    }

    /// Adds the table of a life under a site that has none. The tables of other sites stay as they are.
    ///
    /// Refuses only where memory is refused, and then changes nothing.
    pub fn add(
        &mut self,
        site: u32,
        graph: &Graph<'_>,
        order: &Order,
        life: &Life<'_>,
    ) -> Result<(), AllocError>
        requires free { table_of self.old site ≡ None }
        requires order { IsOrderOf graph.now order.now }
        requires short { delays graph.now < 2 ^ 30 }
        requires from { life.now.from < length graph.now }
        ensures added { OnOk result (HasTableOf self.new site graph.now life.now.from (endings_of life.now.ends.now)) }
        ensures others { OnOk result ((other : ℕ) → (other ≡ site → ⊥) →
            table_of self.new other ≡ table_of self.old other) }
        ensures same { OnErr result ((other : ℕ) → table_of self.new other ≡ table_of self.old other) }
    {
        let table = EndTable::fill(self.alloc, graph, order, life)?;
        match self.tables.insert(site, table) {
            Ok(_) => Ok(()),
            Err(_) => Err(AllocError),
        }
    }

    /// The table of a site that has one. It takes no memory.
    pub fn of(&self, site: u32) -> &EndTable
        requires { IsSome (table_of self.now site) }
        ensures { table_of self.now site ≡ Some result.now }
    {
        match self.tables.get(&site) {
            Some(table) => table,
            None => unreachable!(),
        }
    }
}
