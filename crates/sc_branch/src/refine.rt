//! Which cuts look useful on a path that spreads no further. What is proposed here is judged before it is taken, so a bad choice costs time alone.

use crate::agenda::Signed;
use crate::growth::Growing;
use crate::guess::Stuck;
use crate::seen::Seen;
use sc_facts::{FactName, Path};
use sc_rules::{PlainStep, membership_of, own_sign, sign_of};
use sc_terms::{Formula, Memory, Problem, SetTerm};
use std::alloc::Global;

/// The first of the formulas that has no sign.
fn unsigned_of(path: &Path, formulas: &[u32]) -> Option<u32> {
    formulas
        .iter()
        .find(|formula| sign_of(path, **formula).is_none())
        .copied()
}

/// A part without a sign of a formula that has a sign, which its parts' signs do not force, with the sign that bears the formula's own out, where one sign of a part does.
fn open_part(problem: &Problem, path: &Path, formula: u32) -> Option<Signed> {
    let sign = sign_of(path, formula)?;
    let node = problem.find_formula(formula)?;
    if own_sign(path, node) == Some(sign) {
        return None;
    }
    let (part, wanted) = match node {
        Formula::Not(f) => (unsigned_of(path, &[*f]), !sign),
        Formula::And(parts) | Formula::Or(parts) => (unsigned_of(path, parts.as_slice()), sign),
        Formula::Iff(f, g) => (unsigned_of(path, &[*f, *g]), true),
        _ => (None, sign),
    };
    Some(Signed {
        formula: part?,
        sign: wanted,
    })
}

/// A part of the first formula from a place on, counted from 0, whose sign is not borne out, and the formula's place.
pub(crate) fn first_open(problem: &Problem, path: &Path, start: u32) -> Option<(u32, Signed)> {
    for place in start..problem.counts().formulas {
        if let Some(part) = open_part(problem, path, place + 1) {
            return Some((place, part));
        }
    }
    None
}

/// The argument of a set term on which an element's membership in the term still depends, though the term's own is known.
fn open_argument(seen: Seen<'_>, element: u32, set: u32) -> Option<u32> {
    let inside = membership_of(seen.path, element, set)?;
    let (a, b) = match (seen.problem.find_set(set)?, inside) {
        (SetTerm::Union(a, b), true) => (*a, *b),
        (SetTerm::Inter(a, b), false) => (*a, *b),
        (SetTerm::Minus(a, b), false) => (*a, *b),
        _ => return None,
    };
    if membership_of(seen.path, element, a).is_none()
        && membership_of(seen.path, element, b).is_none()
    {
        return Some(a);
    }
    None
}

/// A cut on one element's membership in an argument of a set term.
fn cut_at(seen: Seen<'_>, element: u32) -> Option<PlainStep> {
    for set in seen.said.sets.of(element) {
        if let Some(argument) = open_argument(seen, element, *set) {
            return Some(PlainStep::Cut(FactName::Member(element, argument)));
        }
    }
    None
}

/// A cut on an element's membership in an argument of a set term.
fn cut_on_argument(seen: Seen<'_>) -> Option<PlainStep> {
    for (element, set) in seen.said.memberships.as_slice() {
        if seen.said.label(*element) == *element {
            if let Some(argument) = open_argument(seen, *element, *set) {
                return Some(PlainStep::Cut(FactName::Member(*element, argument)));
            }
        }
    }
    None
}

/// Whether the path says which of two sets has their differing element.
fn is_told_apart(seen: Seen<'_>, s: u32, t: u32) -> bool {
    let Some(element) = seen.fixed.terms.difference(s, t) else {
        return false;
    };
    match (
        membership_of(seen.path, element, s),
        membership_of(seen.path, element, t),
    ) {
        (Some(inside), Some(other)) => inside != other,
        _ => false,
    }
}

/// A split on which of two different sets has their differing element.
fn split_on_difference(
    growing: &Growing,
    seen: Seen<'_>,
    alloc: Global,
) -> Result<Option<PlainStep>, Memory> {
    for (s, t) in seen.said.unequal_sets.as_slice() {
        // Trying the step looks at all elements; this look-up is quick.
        if is_told_apart(seen, *s, *t) {
            continue;
        }
        let step = PlainStep::Differ(*s, *t);
        if growing.can_split(alloc, seen.problem, &step)? {
            return Ok(Some(step));
        }
    }
    Ok(None)
}

/// A split on what the path leaves open of the assertions: on a formula whose sign its parts do not bear out yet, or on which of two different sets has their differing element. Values that are read off the path may make the assertions true all the same.
pub(crate) fn needed_split(
    growing: &Growing,
    seen: Seen<'_>,
    alloc: Global,
) -> Result<Option<PlainStep>, Memory> {
    if let Some((_, part)) = first_open(seen.problem, seen.path, 0) {
        return Ok(Some(PlainStep::Cut(FactName::Sign(part.formula))));
    }
    split_on_difference(growing, seen, alloc)
}

/// Whether the walk comes to a term for the first time; then it is marked with the element.
fn is_first(marks: &mut [u32], set: u32, element: u32) -> bool {
    if set == 0 {
        return false;
    }
    let Some(mark) = marks.get_mut(set as usize - 1) else {
        return false;
    };
    let first = *mark != element;
    *mark = element;
    first
}

/// The terms over a set term in which the path doesn't say whether an element is, and to which the walk comes for the first time.
fn open_parents(
    seen: Seen<'_>,
    element: u32,
    set: u32,
    marks: &mut [u32],
    pending: &mut Vec<u32>,
) -> Result<(), Memory> {
    for parent in seen.fixed.terms.parents(set) {
        if is_first(marks, *parent, element)
            && membership_of(seen.path, element, *parent).is_none()
        {
            pending.push(*parent)?;
        }
    }
    Ok(())
}

/// A set term that the path says to equal another, in which it doesn't say whether an element is, though it does for a part of the term.
fn open_equal(
    seen: Seen<'_>,
    alloc: Global,
    element: u32,
    marks: &mut [u32],
) -> Result<Option<u32>, Memory> {
    let mut pending = Vec::new(alloc);
    for set in seen.said.sets.of(element) {
        open_parents(seen, element, *set, marks, &mut pending)?;
    }
    for _ in 0..u64::MAX {
        let Some(set) = pending.pop() else {
            return Ok(None);
        };
        if !seen.said.equal_sets.of(set).is_empty() {
            return Ok(Some(set));
        }
        open_parents(seen, element, set, marks, &mut pending)?;
    }
    Ok(None)
}

/// A mark for each set term, that the walk did not come to it.
fn no_marks(alloc: Global, problem: &Problem) -> Result<Vec<u32>, Memory> {
    let mut marks = Vec::new(alloc);
    for _ in 0..problem.counts().sets {
        marks.push(0)?;
    }
    Ok(marks)
}

/// A cut on one element's membership, on which a term or an equation of sets depends.
fn split_at(
    seen: Seen<'_>,
    alloc: Global,
    element: u32,
    marks: &mut [u32],
) -> Result<Option<PlainStep>, Memory> {
    if let Some(step) = cut_at(seen, element) {
        return Ok(Some(step));
    }
    match open_equal(seen, alloc, element, marks)? {
        Some(set) => Ok(Some(PlainStep::Cut(FactName::Member(element, set)))),
        None => Ok(None),
    }
}

/// A cut on a membership of the element whose memberships could not be guessed: on that in a set of one that it was to be in, if there is one.
fn split_where_stuck(
    seen: Seen<'_>,
    alloc: Global,
    stuck: Stuck,
    marks: &mut [u32],
) -> Result<Option<PlainStep>, Memory> {
    let element = stuck.element;
    if let Some(single) = stuck.single {
        if membership_of(seen.path, element, single).is_none() {
            return Ok(Some(PlainStep::Cut(FactName::Member(element, single))));
        }
    }
    split_at(seen, alloc, element, marks)
}

/// A cut that may matter to whether sets are as the path says by the values that are read off it: on a membership of the element whose memberships could not be guessed, or else of another.
pub(crate) fn useful_split(
    seen: Seen<'_>,
    alloc: Global,
    stuck: Option<Stuck>,
) -> Result<Option<PlainStep>, Memory> {
    let mut marks = no_marks(alloc, seen.problem)?;
    if let Some(stuck) = stuck {
        let step = split_where_stuck(seen, alloc, stuck, &mut marks)?;
        if step.is_some() {
            return Ok(step);
        }
    }
    if let Some(step) = cut_on_argument(seen) {
        return Ok(Some(step));
    }
    for place in 0..seen.problem.counts().elements {
        let element = place + 1;
        if seen.said.label(element) == element {
            if let Some(set) = open_equal(seen, alloc, element, &mut marks)? {
                return Ok(Some(PlainStep::Cut(FactName::Member(element, set))));
            }
        }
    }
    Ok(None)
}
