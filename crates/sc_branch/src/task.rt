//! What stays the same while the paths of a problem are worked on.

ghost use Rattle.std.specs.Prelude.{OnOk};
ghost use Rattle.sc_branch.specs.Growing.{GoesOn};

use crate::growth::Growing;
use crate::parents::Parents;
use crate::terms::Terms;
use sc_rules::PlainStep;
use sc_terms::{Memory, Problem};
use std::alloc::Global;

/// What is found out of a problem once, for all its paths. What is said here is only tried, so a wrong hint costs time alone.
#[derive(Drop)]
pub(crate) struct Fixed {
    pub parents: Parents,
    pub terms: Terms,
}

impl Fixed {
    /// What is found out of this problem; linear in it.
    pub(crate) fn new(alloc: Global, problem: &Problem) -> Result<Fixed, Memory> {
        Ok(Fixed {
            parents: Parents::new(alloc, problem)?,
            terms: Terms::new(alloc, problem)?,
        })
    }
}

/// A problem whose paths are worked on, and the greatest number of steps on a path.
#[derive(Clone, Copy)]
pub(crate) struct Task<'a> {
    pub alloc: Global,
    pub problem: &'a Problem,
    pub fixed: &'a Fixed,
    pub budget: u64,
}

impl<'a> Task<'a> {
    /// Takes a step, where it concludes what is new, and the budget has room for it.
    pub(crate) fn attempt(self, growing: &mut Growing, step: PlainStep) -> Result<(), Memory>
        ensures { OnOk result (GoesOn self.entry.problem.now self.entry.budget growing.old growing.new) }
    {
        growing.attempt(self.alloc, self.problem, self.budget, step)?;
        Ok(())
    }
}
