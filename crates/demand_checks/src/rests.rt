//! What the uses of a thread rest on.
ghost use Rattle.std.specs.Prelude.{◌≡◌, ◌++◌, map, IfOk};
ghost use Rattle.core_term.specs.Widths.{Widths};
ghost use Rattle.core_term.specs.View.{term_of};
ghost use Rattle.demand_checks.specs.Rests.{AreRests, pair_of, rest};

use crate::Pair;
use core_term::{CoreThread, SourceAtom};
use std::alloc::{AllocError, Global};

/// An act that uses a value, and an atom that the value rests on.
#[derive(Clone, Copy, Debug, PartialEq, Eq)]
pub struct Rest {
    /// The site of the act.
    pub user: u32,
    pub atom: SourceAtom,
}

impl Rest {
    /// The two sites: of the act that uses, and of the atom.
    pub fn pair(&self) -> Pair
        ensures { result ≡ pair_of self.now }
    {
        let second = match self.atom {
            SourceAtom::Wire { site } => site,
            SourceAtom::Reg { site, .. } => site,
            SourceAtom::Choice { site } => site,
        };
        Pair {
            first: self.user,
            second,
        }
    }
}

/// The uses of a thread, each with each of its atoms.
///
/// Refuses only where memory is refused.
pub fn rests_of(alloc: Global, thread: &CoreThread) -> Result<Vec<Rest>, AllocError>
    ensures { IfOk result (λ rests. (widths : Widths) → AreRests (term_of widths thread.now) rests.items) }
{
    let _body = thread.body();
    let mut rests = Vec::new(alloc);
    for user in 0..thread.count() {
        add_rests(user, thread.use_atoms(user), &mut rests)?;
    }
    Ok(rests)
}

/// Adds the atoms of one use at the end of `rests`.
fn add_rests(user: u32, atoms: &[SourceAtom], rests: &mut Vec<Rest>) -> Result<(), AllocError>
    ensures { IfOk result (λ _. rests.new.items ≡ rests.old.items ++ map (rest user) atoms.now) }
{
    for atom in atoms {
        rests.push(Rest { user, atom: *atom })?;
    }
    Ok(())
}
