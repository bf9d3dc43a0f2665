//! What of a path was followed up about elements and sets. What is said here is only tried, so a wrong hint costs time alone.

ghost use Rattle.std.specs.Prelude.{IsTrue, ◌↔◌};
ghost use Rattle.sc_terms.specs.Conditions.{IsIn};

use crate::lists::Lists;
use sc_classes::{Classes, PlainSteps};
use sc_terms::{Memory, Problem, SetTerm};
use std::alloc::Global;

/// What of a path was followed up about elements and sets.
#[derive(Drop)]
pub(crate) struct Said {
    /// The sets of which the path says whether each element is in them.
    pub sets: Lists,
    /// The elements of which the path says whether they are in each set.
    pub elements: Lists,
    /// The other sets that the path says each set to equal.
    pub equal_sets: Lists,
    /// The elements that the path says each element to differ from.
    pub different: Lists,
    /// The classes of elements that the path says to be equal.
    pub classes: Classes,
    /// Pairs of sets that the path says to differ.
    pub unequal_sets: Vec<(u32, u32)>,
    /// Pairs of an element, the least of its class, and a set term with arguments of which the path says whether the element is in it.
    pub memberships: Vec<(u32, u32)>,
}

impl Said {
    /// Nothing was said.
    pub(crate) fn new(alloc: Global, problem: &Problem) -> Result<Said, Memory> {
        let counts = problem.counts();
        Ok(Said {
            sets: Lists::new(alloc, counts.elements)?,
            elements: Lists::new(alloc, counts.sets)?,
            equal_sets: Lists::new(alloc, counts.sets)?,
            different: Lists::new(alloc, counts.elements)?,
            classes: Classes::new(alloc, problem)?,
            unequal_sets: Vec::new(alloc),
            memberships: Vec::new(alloc),
        })
    }

    /// The least element that the path says an element to equal.
    pub(crate) fn label(&self, element: u32) -> u32 {
        if element > self.classes.count() {
            return element;
        }
        self.classes.label(element)
    }

    /// Whether this is the number of an element.
    fn has(&self, element: u32) -> bool
        ensures { IsTrue result ↔ IsIn self.now.classes.count element }
    {
        element != 0 && element <= self.classes.count()
    }

    /// Why two elements are equal, or nothing where they are not in one class.
    pub(crate) fn explain(
        &self,
        alloc: Global,
        e: u32,
        f: u32,
    ) -> Result<Option<PlainSteps>, Memory> {
        if !self.has(e) || !self.has(f) || self.classes.label(e) != self.classes.label(f) {
            return Ok(None);
        }
        Ok(Some(self.classes.explain(alloc, e, f)?))
    }

    /// Notes that the path says of two elements that they are equal.
    pub(crate) fn merge(&mut self, e: u32, f: u32) -> Result<(), Memory> {
        if !self.has(e) || !self.has(f) {
            return Ok(());
        }
        self.classes.merge(e, f, 0)
    }

    /// Notes that the path says whether an element is in a set.
    pub(crate) fn add_member(
        &mut self,
        problem: &Problem,
        element: u32,
        set: u32,
    ) -> Result<(), Memory> {
        self.sets.add(element, set)?;
        self.elements.add(set, element)?;
        if let Some(
            SetTerm::Union(_, _) | SetTerm::Inter(_, _) | SetTerm::Minus(_, _),
        ) = problem.find_set(set)
        {
            self.memberships.push((element, set))?;
        }
        Ok(())
    }

    /// The least element that the path says each element to equal, by the elements' numbers less 1.
    pub(crate) fn labels(&self, alloc: Global, problem: &Problem) -> Result<Vec<u32>, Memory> {
        let mut labels = Vec::new(alloc);
        for place in 0..problem.counts().elements {
            labels.push(self.label(place + 1))?;
        }
        Ok(labels)
    }
}
