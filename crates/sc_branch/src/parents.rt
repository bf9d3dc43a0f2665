//! Which formulas are parts of which. What is said here is only tried, so a wrong hint costs time alone.

use crate::lists::Lists;
use sc_terms::{Formula, Memory, Problem};
use std::alloc::Global;

/// The formulas of which each formula is a part.
#[derive(Drop)]
pub(crate) struct Parents {
    lists: Lists,
}

/// Notes the formulas of which these are parts.
fn note_all(lists: &mut Lists, parts: &[u32], parent: u32) -> Result<(), Memory> {
    for part in parts {
        lists.add(*part, parent)?;
    }
    Ok(())
}

/// Notes the parts of a formula.
fn note_parts(lists: &mut Lists, node: &Formula, parent: u32) -> Result<(), Memory> {
    match node {
        Formula::Not(f) => lists.add(*f, parent),
        Formula::And(parts) | Formula::Or(parts) => note_all(lists, parts.as_slice(), parent),
        Formula::Iff(f, g) => note_all(lists, &[*f, *g], parent),
        _ => Ok(()),
    }
}

impl Parents {
    /// The parents of a problem's formulas; linear in their parts.
    pub(crate) fn new(alloc: Global, problem: &Problem) -> Result<Parents, Memory> {
        let count = problem.counts().formulas;
        let mut lists = Lists::new(alloc, count)?;
        for place in 0..count {
            note_parts(&mut lists, problem.formula(place + 1), place + 1)?;
        }
        Ok(Parents { lists })
    }

    /// The formulas of which a formula is a part, each as often as it is.
    pub(crate) fn of(&self, formula: u32) -> &[u32] {
        self.lists.of(formula)
    }
}
