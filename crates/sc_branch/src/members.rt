//! Spreading what a path says of elements and sets: to the arguments and the terms of set operators, to equal elements and to equal sets.

ghost use Rattle.std.specs.Prelude.{OnOk};
ghost use Rattle.sc_branch.specs.Growing.{GoesOn};

use crate::growth::Growing;
use crate::said::Said;
use crate::task::Task;
use sc_rules::{PlainStep, equal_fact};
use sc_terms::{Memory, Problem, SetTerm};
use std::alloc::Global;

/// Tries the steps that lie between an element's membership in a set term and those in its arguments.
pub(crate) fn attempt_at(
    growing: &mut Growing,
    task: Task<'_>,
    element: u32,
    set: u32,
) -> Result<(), Memory>
    ensures { OnOk result (GoesOn task.entry.problem.now task.entry.budget growing.old growing.new) }
{
    match task.problem.find_set(set) {
        Some(SetTerm::Union(_, _) | SetTerm::Inter(_, _) | SetTerm::Minus(_, _)) => {
            task.attempt(growing, PlainStep::Op(element, set, 0))?;
            task.attempt(growing, PlainStep::Op(element, set, 1))?;
            task.attempt(growing, PlainStep::Op(element, set, 2))
        }
        Some(SetTerm::Empty(_)) => { task.attempt(growing, PlainStep::Op(element, set, 0)) }
        Some(SetTerm::Single(_)) => { task.attempt(growing, PlainStep::Unsingle(element, set)) }
        _ => Ok(()),
    }
}

/// Tries the steps that take an element's membership from the sets that a set term is said to equal.
fn attempt_from_equals(
    growing: &mut Growing,
    said: &Said,
    task: Task<'_>,
    element: u32,
    set: u32,
) -> Result<(), Memory>
    ensures { OnOk result (GoesOn task.entry.problem.now task.entry.budget growing.old growing.new) }
{
    for other in said.equal_sets.of(set) {
        if let Some(SetTerm::Empty(_)) = task.problem.find_set(*other) {
            task.attempt(growing, PlainStep::Op(element, *other, 0))?;
        }
        task.attempt(growing, PlainStep::Move(element, *other, set))?;
    }
    Ok(())
}

/// Tries the steps that say of the least element of a class what is said of another.
fn attempt_carry(
    growing: &mut Growing,
    said: &Said,
    task: Task<'_>,
    element: u32,
    set: u32,
) -> Result<(), Memory>
    ensures { OnOk result (GoesOn task.entry.problem.now task.entry.budget growing.old growing.new) }
{
    let label = said.label(element);
    join(growing, said, task, label, element)?;
    task.attempt(growing, PlainStep::Carry(element, label, set))
}

/// Tries the steps that explain why two elements of one class are equal.
fn join(growing: &mut Growing, said: &Said, task: Task<'_>, e: u32, f: u32) -> Result<(), Memory>
    ensures { OnOk result (GoesOn task.entry.problem.now task.entry.budget growing.old growing.new) }
{
    if growing.path().has(&equal_fact(e, f, true)) {
        return Ok(());
    }
    let Some(steps) = said.explain(task.alloc, e, f)? else {
        return Ok(());
    };
    for step in steps.as_slice() {
        task.attempt(growing, step.clone()?)?;
    }
    Ok(())
}

/// Follows up that an element is in a set, or not.
pub(crate) fn follow_member(
    growing: &mut Growing,
    said: &mut Said,
    task: Task<'_>,
    element: u32,
    set: u32,
) -> Result<(), Memory>
    ensures { OnOk result (GoesOn task.entry.problem.now task.entry.budget growing.old growing.new) }
{
    said.add_member(task.problem, element, set)?;
    if said.label(element) != element {
        return attempt_carry(growing, said, task, element, set);
    }
    attempt_at(growing, task, element, set)?;
    for other in said.equal_sets.of(set) {
        task.attempt(growing, PlainStep::Move(element, set, *other))?;
    }
    for parent in task.fixed.terms.parents(set) {
        attempt_at(growing, task, element, *parent)?;
        attempt_from_equals(growing, said, task, element, *parent)?;
    }
    Ok(())
}

/// Says of the sets of one of two different elements that the other is not in them.
fn attempt_singles(growing: &mut Growing, task: Task<'_>, e: u32, f: u32) -> Result<(), Memory>
    ensures { OnOk result (GoesOn task.entry.problem.now task.entry.budget growing.old growing.new) }
{
    for set in task.fixed.terms.singles(f) {
        task.attempt(growing, PlainStep::Single(e, *set))?;
    }
    Ok(())
}

/// Tries the steps by which the least elements of two classes differ, since two of their elements do.
fn lift(growing: &mut Growing, said: &Said, task: Task<'_>, e: u32, f: u32) -> Result<(), Memory>
    ensures { OnOk result (GoesOn task.entry.problem.now task.entry.budget growing.old growing.new) }
{
    let first = said.label(e);
    let second = said.label(f);
    if first != e {
        join(growing, said, task, first, e)?;
        task.attempt(growing, PlainStep::EqStep(first, e, f))?;
    }
    if second != f {
        join(growing, said, task, f, second)?;
        task.attempt(growing, PlainStep::EqStep(first, f, second))?;
    }
    Ok(())
}

/// Follows up that two elements differ.
pub(crate) fn follow_different(
    growing: &mut Growing,
    said: &mut Said,
    task: Task<'_>,
    e: u32,
    f: u32,
) -> Result<(), Memory>
    ensures { OnOk result (GoesOn task.entry.problem.now task.entry.budget growing.old growing.new) }
{
    if e == f {
        return task.attempt(growing, PlainStep::EqRefl(e));
    }
    said.different.add(e, f)?;
    said.different.add(f, e)?;
    attempt_singles(growing, task, e, f)?;
    attempt_singles(growing, task, f, e)?;
    lift(growing, said, task, e, f)?;
    if said.label(e) == said.label(f) {
        return join(growing, said, task, e, f);
    }
    Ok(())
}

/// Follows up that two elements are equal: what is said of the greater of the two classes' least elements is said of the lesser.
pub(crate) fn follow_equal(
    growing: &mut Growing,
    said: &mut Said,
    task: Task<'_>,
    e: u32,
    f: u32,
) -> Result<(), Memory>
    ensures { OnOk result (GoesOn task.entry.problem.now task.entry.budget growing.old growing.new) }
{
    let first = said.label(e);
    let second = said.label(f);
    if first == second {
        return Ok(());
    }
    said.merge(e, f)?;
    let old = if first < second { second } else { first };
    for set in said.sets.of(old) {
        attempt_carry(growing, said, task, old, *set)?;
    }
    for other in said.different.of(old) {
        lift(growing, said, task, old, *other)?;
        if said.label(old) == said.label(*other) {
            join(growing, said, task, old, *other)?;
        }
    }
    Ok(())
}

/// Says of an empty set, and of a set that equals it, that the elements of an argument of the other are not in them.
fn attempt_empty(
    growing: &mut Growing,
    said: &Said,
    task: Task<'_>,
    argument: u32,
    set: u32,
    empty: u32,
) -> Result<(), Memory>
    ensures { OnOk result (GoesOn task.entry.problem.now task.entry.budget growing.old growing.new) }
{
    for element in said.elements.of(argument) {
        task.attempt(growing, PlainStep::Op(*element, empty, 0))?;
        task.attempt(growing, PlainStep::Move(*element, empty, set))?;
    }
    Ok(())
}

/// Says of each of two equal sets what is said of the other.
fn attempt_moves(
    growing: &mut Growing,
    said: &Said,
    task: Task<'_>,
    s: u32,
    t: u32,
) -> Result<(), Memory>
    ensures { OnOk result (GoesOn task.entry.problem.now task.entry.budget growing.old growing.new) }
{
    for element in said.elements.of(s) {
        task.attempt(growing, PlainStep::Move(*element, s, t))?;
    }
    let Some(SetTerm::Empty(_)) = task.problem.find_set(t) else {
        return Ok(());
    };
    attempt_empty(growing, said, task, s, s, t)?;
    match task.problem.find_set(s) {
        Some(SetTerm::Union(a, b) | SetTerm::Inter(a, b) | SetTerm::Minus(a, b)) => {
            attempt_empty(growing, said, task, *a, s, t)?;
            attempt_empty(growing, said, task, *b, s, t)
        }
        _ => Ok(()),
    }
}

/// Follows up that two sets are equal.
pub(crate) fn follow_equal_sets(
    growing: &mut Growing,
    said: &mut Said,
    task: Task<'_>,
    s: u32,
    t: u32,
) -> Result<(), Memory>
    ensures { OnOk result (GoesOn task.entry.problem.now task.entry.budget growing.old growing.new) }
{
    if s == t {
        return Ok(());
    }
    said.equal_sets.add(s, t)?;
    said.equal_sets.add(t, s)?;
    attempt_moves(growing, said, task, s, t)?;
    attempt_moves(growing, said, task, t, s)
}

/// Follows up that two sets differ.
pub(crate) fn follow_unequal_sets(
    growing: &mut Growing,
    said: &mut Said,
    task: Task<'_>,
    s: u32,
    t: u32,
) -> Result<(), Memory>
    ensures { OnOk result (GoesOn task.entry.problem.now task.entry.budget growing.old growing.new) }
{
    if s == t {
        return task.attempt(growing, PlainStep::SeqRefl(s));
    }
    said.unequal_sets.push((s, t))?;
    Ok(())
}

/// Says of each set of one that its element is in it.
pub(crate) fn spread_singles(growing: &mut Growing, task: Task<'_>) -> Result<(), Memory>
    ensures { OnOk result (GoesOn task.entry.problem.now task.entry.budget growing.old growing.new) }
{
    for place in 0..task.problem.counts().sets {
        if let SetTerm::Single(element) = task.problem.set(place + 1) {
            task.attempt(growing, PlainStep::EqRefl(*element))?;
            task.attempt(growing, PlainStep::Single(*element, place + 1))?;
        }
    }
    Ok(())
}
