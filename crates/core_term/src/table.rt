//! A table of atoms: a row for each act of a body, by its site.
ghost use Rattle.std.specs.Prelude.{◌≡◌, ◌∷◌, [], ◌++◌, length, IfOk};
ghost use Rattle.core_term.specs.AtomTables.{row_at, put_row};

use crate::SourceAtom;
use std::alloc::{AllocError, Global};
use std::marker::Model;

/// Rows of atoms. Contracts see the table as the list of its rows.
#[derive(Drop)]
pub struct AtomTable {
    rows: Vec<Vec<SourceAtom>>,
}

impl Model for AtomTable {
    ghost use Rattle.std.specs.Prelude.{List, map};
    ghost use Rattle.std.specs.Coded.{codes};
    ghost use Rattle.core_term.specs.declared.term.SourceAtom.{SourceAtom};
    ghost use Rattle.core_term.specs.contracts.term.SourceAtom as core;

    ghost Value = { List (List SourceAtom) };

    ghost coded = { Prim.hlevel (codes, core.the_row.coded) };

    ghost view = { λ t. map (λ row. row.items) t.rows.items };
}

impl AtomTable {
    /// A table without rows.
    pub fn new(alloc: Global) -> AtomTable
        ensures { result ≡ [] }
    {
        AtomTable {
            rows: Vec::new(alloc),
        }
    }

    /// How many rows there are.
    pub fn len(&self) -> usize
        ensures { result ≡ length self.now }
    {
        self.rows.len()
    }

    /// The row of a site, which is empty where there is none.
    pub fn row(&self, site: u32) -> &[SourceAtom]
        ensures { result.now ≡ row_at self.now site }
    {
        match self.rows.get(site as usize) {
            Some(row) => row.as_slice(),
            None => &[],
        }
    }

    /// Adds a row at the end.
    pub fn add(&mut self, row: Vec<SourceAtom>) -> Result<(), AllocError>
        ensures { IfOk result (λ _. self.new ≡ self.old ++ row.items ∷ []) }
    {
        self.rows.push(row)?;
        Ok(())
    }

    /// Puts a row in place of another.
    pub fn put(&mut self, place: usize, row: Vec<SourceAtom>)
        ensures { self.new ≡ put_row self.old place row.items }
    {
        if place < self.rows.len() {
            self.rows[place] = row;
        }
    }
}
