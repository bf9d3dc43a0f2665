//! What stands where among the terms of a problem. What is said here is only tried, so a wrong hint costs time alone.

use crate::lists::Lists;
use indexmap::IndexMap;
use sc_terms::{Element, Memory, Problem, SetTerm};
use std::alloc::Global;

/// Where set terms and elements stand in other terms.
#[derive(Drop)]
pub(crate) struct Terms {
    /// The unions, intersections and differences of which each set term is an argument.
    parents: Lists,
    /// The sets of one whose element each element is.
    singles: Lists,
    /// The differing element of each pair of sets that has one, by the pair in order.
    differences: IndexMap<(u32, u32), u32>,
}

/// The two numbers, the lower one first.
fn in_order(s: u32, t: u32) -> (u32, u32) {
    if s <= t { (s, t) } else { (t, s) }
}

/// The differing elements of a problem, by their pairs of sets.
fn differences_of(alloc: Global, problem: &Problem) -> Result<IndexMap<(u32, u32), u32>, Memory> {
    let mut differences = IndexMap::new(alloc);
    for place in 0..problem.counts().elements {
        if let Element::Diff(s, t) = problem.element(place + 1) {
            differences.insert(in_order(*s, *t), place + 1)?;
        }
    }
    Ok(differences)
}

impl Terms {
    /// The places of a problem's terms; linear in their number.
    pub(crate) fn new(alloc: Global, problem: &Problem) -> Result<Terms, Memory> {
        let mut parents = Lists::new(alloc, problem.counts().sets)?;
        let mut singles = Lists::new(alloc, problem.counts().elements)?;
        for place in 0..problem.counts().sets {
            match problem.set(place + 1) {
                SetTerm::Union(a, b) | SetTerm::Inter(a, b) | SetTerm::Minus(a, b) => {
                    parents.add(*a, place + 1)?;
                    if *b != *a {
                        parents.add(*b, place + 1)?;
                    }
                }
                SetTerm::Single(element) => singles.add(*element, place + 1)?,
                _ => {}
            }
        }
        Ok(Terms {
            parents,
            singles,
            differences: differences_of(alloc, problem)?,
        })
    }

    /// The terms of which a set term is an argument.
    pub(crate) fn parents(&self, set: u32) -> &[u32] {
        self.parents.of(set)
    }

    /// The sets of one whose element this is.
    pub(crate) fn singles(&self, element: u32) -> &[u32] {
        self.singles.of(element)
    }

    /// The differing element of two sets, where they have one.
    pub(crate) fn difference(&self, s: u32, t: u32) -> Option<u32> {
        self.differences.get(&in_order(s, t)).copied()
    }
}
