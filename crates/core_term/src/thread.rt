//! A thread: a body that is numbered and tail-stepped, so that each of its turns takes time.
ghost use Rattle.std.specs.Prelude.{◌≡◌, ◌<◌, ◌++◌, length, slice_index, IfOk};
ghost use Rattle.core_term.specs.Numbering.{size};
ghost use Rattle.core_term.specs.Sources.{act_sources};
ghost use Rattle.core_term.specs.Widths.{Widths};
ghost use Rattle.core_term.specs.View.{term_of, places_of};
ghost use Rattle.core_term.specs.Body.{IsBody};
ghost use Rattle.core_term.specs.Atoms.{use_sources, AreAtomsAt};
ghost use Rattle.core_term.specs.AtomTables.{add_values, uses_of};

use crate::atoms::{add_uses, add_values};
use crate::places::add_places;
use crate::table::AtomTable;
use crate::{CoreTerm, SourceAtom};
use std::alloc::{AllocError, Global};
use std::marker::Model;

/// A thread. Contracts see it as its body, and know that the body is numbered, tail-stepped, of at most 512 acts and
/// without a `cycle` of 0. The places and the atoms of its acts are found once, as it is made.
#[derive(Drop)]
pub struct CoreThread {
    body: CoreTerm,
    places: Vec<u32>,
    values: AtomTable,
    uses: AtomTable,
}

impl Model for CoreThread {
    ghost use Rattle.std.specs.Prelude.{◌≡◌, []};
    ghost use Rattle.core_term.specs.declared.term.CoreTerm.{CoreTerm};
    ghost use Rattle.core_term.specs.View.{places_of};
    ghost use Rattle.core_term.specs.Body.{IsBody};
    ghost use Rattle.core_term.specs.AtomTables.{add_values, uses_of};
    ghost use Rattle.core_term.specs.contracts.term.CoreTerm as core;
    ghost use Rattle.std.specs.Coded.{codes};

    ghost Value = { CoreTerm };

    ghost coded = { Prim.hlevel (codes, core.the_row.coded) };

    ghost view = { λ t. t.body };

    ghost invariant = { λ t. IsBody t.body × (t.places.items ≡ places_of t.body) × (t.values ≡ add_values [] t.body)
        × (t.uses ≡ uses_of (add_values [] t.body) t.body) };
}

/// Adds the places of the acts of a body, and the atoms of their values and uses, at the ends of three tables.
fn fill(
    alloc: Global,
    body: &CoreTerm,
    places: &mut Vec<u32>,
    values: &mut AtomTable,
    uses: &mut AtomTable,
) -> Result<(), AllocError>
    ensures places { IfOk result (λ _. places.new.items ≡ places.old.items ++ places_of body.now) }
    ensures values { IfOk result (λ _. values.new ≡ add_values values.old body.now) }
    ensures uses { IfOk result (λ _. uses.new ≡ uses.old ++ uses_of values.new body.now) }
{
    add_places(body, places)?;
    add_values(alloc, body, values)?;
    add_uses(alloc, body, values, uses)
}

/// The refusal, where a value is let go.
fn refused<T: Drop, R: Drop>(_value: T, refusal: AllocError) -> Result<R, AllocError>
    ensures { IfOk result (λ _. ⊥) }
{
    Err(refusal)
}

impl CoreThread {
    /// A thread with this body, which is numbered, tail-stepped, of at most 512 acts and without a `cycle` of 0.
    ///
    /// Refuses only where memory is refused.
    pub fn new(alloc: Global, body: CoreTerm) -> Result<CoreThread, AllocError>
        requires { IsBody body }
        ensures { IfOk result (λ thread. thread ≡ body) }
    {
        let mut places = Vec::new(alloc);
        let mut values = AtomTable::new(alloc);
        let mut uses = AtomTable::new(alloc);
        match fill(alloc, &body, &mut places, &mut values, &mut uses) {
            Ok(()) => Ok(CoreThread {
                body,
                places,
                values,
                uses,
            }),
            Err(refusal) => refused((body, places, values, uses), refusal),
        }
    }

    /// The body.
    pub fn body(&self) -> &CoreTerm
        ensures same { result.now ≡ self.now }
        ensures body { IsBody self.now }
    {
        &self.body
    }

    /// How many acts the body has.
    #[tactic(auto, using(crate::proofs::code_tables::Counted::counted))]
    pub fn count(&self) -> u32
        ensures places { result ≡ length (places_of self.now) }
        ensures size { (widths : Widths) → result ≡ size (term_of widths self.now) }
    {
        self.places.len() as u32
    }

    /// The place in the source of the act of a site, as a byte offset.
    pub fn place(&self, site: u32) -> u32
        requires { site < length (places_of self.now) }
        ensures { result ≡ slice_index (places_of self.now) site }
    {
        self.places[site as usize]
    }

    /// The atoms of the value of the act of a site: exactly its sources, ascending and each once. Empty where it has no
    /// value.
    pub fn value_atoms(&self, site: u32) -> &[SourceAtom]
        requires { site < length (places_of self.now) }
        ensures { (widths : Widths) → AreAtomsAt act_sources (term_of widths self.now) site result.now }
    {
        self.values.row(site)
    }

    /// The atoms of the expression that a `set`, `send` or `if` uses: exactly its sources, ascending and each once.
    /// Empty where the act of the site uses none.
    pub fn use_atoms(&self, site: u32) -> &[SourceAtom]
        requires { site < length (places_of self.now) }
        ensures { (widths : Widths) → AreAtomsAt use_sources (term_of widths self.now) site result.now }
    {
        self.uses.row(site)
    }
}
