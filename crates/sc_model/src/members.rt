//! What is due at memberships.

ghost use Rattle.std.specs.Prelude.{◌≡◌, ◌≢◌, ℕ, true, length, Some, is_some, IfOk, MatchOption};
ghost use Rattle.std.specs.List.{AllByRecursion};
ghost use Rattle.sc_facts.specs.Facts.{has};
ghost use Rattle.sc_terms.specs.Conditions.{IsIn};
ghost use Rattle.sc_sorts.specs.Sorts as sorts;
ghost use Rattle.sc_rules.specs.Members.{within_of};
ghost use Rattle.sc_tree.specs.Events.{HasNoClash};
ghost use Rattle.sc_model.specs.Modelling.{label_in};
ghost use Rattle.sc_model.specs.Deciding.{IsDue, AreLabelsOf, IsLabelled, FollowsAt, FollowsIn, IsDecidedIn, HasOtherLabels};

use crate::links::due_equal;
use crate::model::label_of;
use crate::steps::{Due, due_step};
use sc_classes::Classes;
use sc_facts::{Fact, FactName, Path};
use sc_rules::{PlainStep, membership_of};
use sc_sorts::may_hold;
use sc_terms::{Memory, Problem};
use std::alloc::Global;

/// What is due where the path has an element in a set or outside it by this sign, and not so its label.
fn due_carry(
    alloc: Global,
    problem: &Problem,
    path: &Path,
    classes: &Classes,
    labels: &[u32],
    element: u32,
    label: u32,
    set: u32,
    sign: bool,
) -> Result<Due, Memory>
    requires labels { AreLabelsOf problem.now path.now.facts classes.now labels.now }
    requires consistent { HasNoClash path.now.facts }
    requires element { IsIn (length problem.now.elements) element }
    requires label { label ≡ label_in labels.now element }
    requires member { within_of path.now.facts element set ≡ Some sign }
    requires other { within_of path.now.facts label set ≢ Some sign }
    ensures { IfOk result (λ due. IsDue problem.now path.now.facts due) }
{
    let _sign = sign;
    match due_equal(alloc, problem, path, classes, labels, element, label)? {
        Some(step) => Ok(Due::Take(step)),
        None => Ok(Due::Take(PlainStep::Carry(element, label, set))),
    }
}

/// What is due where the path does not have an element's label in a set as it has the element.
fn due_label(
    alloc: Global,
    problem: &Problem,
    path: &Path,
    classes: &Classes,
    labels: &[u32],
    element: u32,
    set: u32,
) -> Result<Option<Due>, Memory>
    requires labels { AreLabelsOf problem.now path.now.facts classes.now labels.now }
    requires consistent { HasNoClash path.now.facts }
    requires element { IsIn (length problem.now.elements) element }
    ensures { IfOk result (λ due. MatchOption due (IsLabelled path.now.facts (label_in labels.now) element set) (IsDue problem.now path.now.facts)) }
{
    let label = label_of(labels, element);
    let Some(sign) = membership_of(path, element, set) else {
        return Ok(None);
    };
    if membership_of(path, label, set) == Some(sign) {
        return Ok(None);
    }
    let due = due_carry(
        alloc, problem, path, classes, labels, element, label, set, sign,
    )?;
    Ok(Some(due))
}

/// What is due at the membership of an element in a set, where it is of the set's sort.
fn due_at(
    alloc: Global,
    problem: &Problem,
    path: &Path,
    classes: &Classes,
    labels: &[u32],
    element: u32,
    set: u32,
) -> Result<Option<Due>, Memory>
    requires labels { AreLabelsOf problem.now path.now.facts classes.now labels.now }
    requires consistent { HasNoClash path.now.facts }
    requires element { IsIn (length problem.now.elements) element }
    ensures { IfOk result (λ due. MatchOption due (sorts.may_hold problem.now set element ≡ true → FollowsAt problem.now path.now.facts (label_in labels.now) element set) (IsDue problem.now path.now.facts)) }
{
    if !may_hold(problem, set, element) {
        return Ok(None);
    }
    let by_op = due_step(alloc, problem, path, PlainStep::Op(element, set, 0))?;
    if by_op.is_some() {
        return Ok(by_op);
    }
    let by_single = due_step(alloc, problem, path, PlainStep::Unsingle(element, set))?;
    if by_single.is_some() {
        return Ok(by_single);
    }
    due_label(alloc, problem, path, classes, labels, element, set)
}

/// What is due at the memberships in one set.
fn due_in_set(
    alloc: Global,
    problem: &Problem,
    path: &Path,
    classes: &Classes,
    labels: &[u32],
    set: u32,
) -> Result<Option<Due>, Memory>
    requires labels { AreLabelsOf problem.now path.now.facts classes.now labels.now }
    requires consistent { HasNoClash path.now.facts }
    ensures { IfOk result (λ due. MatchOption due (FollowsIn problem.now path.now.facts (label_in labels.now) set) (IsDue problem.now path.now.facts)) }
{
    for place in 0..problem.counts().elements {
        let due = due_at(alloc, problem, path, classes, labels, place + 1, set)?;
        if due.is_some() {
            return Ok(due);
        }
    }
    Ok(None)
}

/// What is due at memberships, or nothing exactly where the path has all that follows at each.
pub(crate) fn due_member(
    alloc: Global,
    problem: &Problem,
    path: &Path,
    classes: &Classes,
    labels: &[u32],
) -> Result<Option<Due>, Memory>
    requires labels { AreLabelsOf problem.now path.now.facts classes.now labels.now }
    requires consistent { HasNoClash path.now.facts }
    ensures { IfOk result (λ due. MatchOption due ((s : ℕ) → IsIn (length problem.now.sets) s → FollowsIn problem.now path.now.facts (label_in labels.now) s) (IsDue problem.now path.now.facts)) }
{
    for place in 0..problem.counts().sets {
        let due = due_in_set(alloc, problem, path, classes, labels, place + 1)?;
        if due.is_some() {
            return Ok(due);
        }
    }
    Ok(None)
}

/// A cut on the membership of an element in a set, where it is of the set's sort and the path says nothing of it.
fn undecided_at(problem: &Problem, path: &Path, element: u32, set: u32) -> Option<Due>
    ensures { MatchOption result (sorts.may_hold problem.now set element ≡ true → is_some (within_of path.now.facts element set) ≡ true) (IsDue problem.now path.now.facts) }
{
    if !may_hold(problem, set, element) {
        return None;
    }
    if membership_of(path, element, set).is_some() {
        return None;
    }
    Some(Due::Split(PlainStep::Cut(FactName::Member(element, set))))
}

/// A cut on a membership in one set on which the path says nothing.
fn undecided_in_set(problem: &Problem, path: &Path, set: u32) -> Option<Due>
    ensures { MatchOption result (IsDecidedIn problem.now path.now.facts set) (IsDue problem.now path.now.facts) }
{
    for place in 0..problem.counts().elements {
        let due = undecided_at(problem, path, place + 1, set);
        if due.is_some() {
            return due;
        }
    }
    None
}

/// A cut on a membership on which the path says nothing, or nothing exactly where it has each element in each set of its sort or outside it.
pub(crate) fn due_undecided(problem: &Problem, path: &Path) -> Option<Due>
    ensures { MatchOption result ((s : ℕ) → IsIn (length problem.now.sets) s → IsDecidedIn problem.now path.now.facts s) (IsDue problem.now path.now.facts) }
{
    for place in 0..problem.counts().sets {
        let due = undecided_in_set(problem, path, place + 1);
        if due.is_some() {
            return due;
        }
    }
    None
}

/// What is due where a fact says that two elements differ that have one label.
fn due_apart_of(
    alloc: Global,
    problem: &Problem,
    path: &Path,
    classes: &Classes,
    labels: &[u32],
    fact: &Fact,
) -> Result<Option<Due>, Memory>
    requires labels { AreLabelsOf problem.now path.now.facts classes.now labels.now }
    requires consistent { HasNoClash path.now.facts }
    requires stands { has path.now.facts fact.now ≡ true }
    ensures { IfOk result (λ due. MatchOption due (HasOtherLabels problem.now (label_in labels.now) fact.now) (IsDue problem.now path.now.facts)) }
{
    let Fact::Eq(first, second, sign) = fact else {
        return Ok(None);
    };
    if *sign {
        return Ok(None);
    }
    let count = problem.counts().elements;
    if first > second || *first == 0 || *second > count {
        return Ok(None);
    }
    if label_of(labels, *first) != label_of(labels, *second) {
        return Ok(None);
    }
    match due_equal(alloc, problem, path, classes, labels, *first, *second)? {
        Some(step) => Ok(Some(Due::Take(step))),
        None => Ok(Some(Due::Take(PlainStep::EqRefl(*first)))),
    }
}

/// What is due where elements differ that have one label, or nothing exactly where all that differ have different ones.
pub(crate) fn due_apart(
    alloc: Global,
    problem: &Problem,
    path: &Path,
    classes: &Classes,
    labels: &[u32],
) -> Result<Option<Due>, Memory>
    requires labels { AreLabelsOf problem.now path.now.facts classes.now labels.now }
    requires consistent { HasNoClash path.now.facts }
    ensures { IfOk result (λ due. MatchOption due (AllByRecursion (HasOtherLabels problem.now (label_in labels.now)) path.now.facts) (IsDue problem.now path.now.facts)) }
{
    for fact in path.facts() {
        let due = due_apart_of(alloc, problem, path, classes, labels, fact)?;
        if due.is_some() {
            return Ok(due);
        }
    }
    Ok(None)
}
