//! Guesses of the memberships that a path leaves open. What is guessed here is only tried, so a wrong guess costs time alone.

use crate::column::Column;
use crate::joins::Place;
use crate::seen::Seen;
use sc_facts::Fact;
use sc_rules::membership_of;
use sc_terms::{Memory, Problem, SetTerm};
use std::alloc::Global;

/// An element whose memberships could not be completed.
#[derive(Clone, Copy)]
pub(crate) struct Stuck {
    pub element: u32,
    /// A set of one that the element was to be in, though the path does not say whether it equals the set's.
    pub single: Option<u32>,
}

/// What was guessed beside a path.
#[derive(Drop)]
pub(crate) struct Guessed {
    /// Pairs of an element and a set constant in which it is to be, though the path does not say so.
    pub members: Vec<(u32, u32)>,
    /// The first element whose memberships could not be completed.
    pub stuck: Option<Stuck>,
}

/// Whether the path puts an element into some set.
fn is_in_some(seen: Seen<'_>, element: u32) -> bool {
    seen.said
        .sets
        .of(element)
        .iter()
        .any(|set| seen.path.has(&Fact::Member(element, *set, true)))
}

/// Notes what the path says of an element's memberships.
fn read(column: &mut Column, seen: Seen<'_>, element: u32) -> Result<(), Memory> {
    for set in seen.said.sets.of(element) {
        if let Some(inside) = membership_of(seen.path, element, *set) {
            column.put(seen, Place { set: *set, inside })?;
        }
    }
    Ok(())
}

/// Adds the set constants, from a place of the known set terms on, in which an element is.
fn add_members(
    members: &mut Vec<(u32, u32)>,
    column: &Column,
    problem: &Problem,
    element: u32,
    start: usize,
) -> Result<(), Memory> {
    for set in column.known().iter().skip(start) {
        if let (Some(SetTerm::Const(_, _)), Some(true)) = (
            problem.find_set(*set),
            column.entry(*set),
        ) {
            members.push((element, *set))?;
        }
    }
    Ok(())
}

/// Guesses the memberships of one element, and tells whether that could be done.
fn guess_at(
    members: &mut Vec<(u32, u32)>,
    column: &mut Column,
    seen: Seen<'_>,
    element: u32,
) -> Result<bool, Memory> {
    column.begin(element);
    read(column, seen, element)?;
    let start = column.known().len();
    if !column.complete(seen)? {
        return Ok(false);
    }
    add_members(members, column, seen.problem, element, start)?;
    Ok(true)
}

/// The memberships that are guessed beside a path, for each element by itself, up to the first where it can't be done.
///
/// Each element that the path puts into some set has a column: the memberships that the path says, and what follows from them by the set operators and the equal sets. Where a term is open, the element is guessed to be in the first part of a union in which it is, and else outside the open part; a guess that leads to a clash is taken back. All other elements are in no set.
pub(crate) fn guess(alloc: Global, seen: Seen<'_>) -> Result<Guessed, Memory> {
    let mut members = Vec::new(alloc);
    let mut column = Column::new(alloc, seen.problem)?;
    for place in 0..seen.problem.counts().elements {
        let element = place + 1;
        if seen.said.label(element) == element && is_in_some(seen, element) {
            if !guess_at(&mut members, &mut column, seen, element)? {
                return Ok(Guessed {
                    members,
                    stuck: Some(Stuck {
                        element,
                        single: column.single(),
                    }),
                });
            }
        }
    }
    Ok(Guessed {
        members,
        stuck: None,
    })
}
