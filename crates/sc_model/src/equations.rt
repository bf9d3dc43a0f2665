//! What is due at equations of sets.

ghost use Rattle.std.specs.Prelude.{◌≡◌, ◌&&◌, ℕ, true, false, length, IfOk, MatchOption};
ghost use Rattle.sc_terms.specs.Conditions.{IsIn};
ghost use Rattle.sc_sorts.specs.Sorts as sorts;
ghost use Rattle.sc_sorts.specs.Posed.{IsOfScript};
ghost use Rattle.sc_rules.specs.Pairs.{same_set};
ghost use Rattle.sc_tree.specs.Events.{HasNoClash};
ghost use Rattle.sc_model.specs.Settled.{MovesStand, AreToldApart};
ghost use Rattle.sc_model.specs.Deciding as spec;
ghost use Rattle.sc_model.specs.Deciding.{IsDue, AreMoved, HasMoves, AreUntold, IsTold};

use crate::steps::{Due, due_step};
use sc_facts::{Fact, Path};
use sc_rules::{PlainStep, same_set_fact};
use sc_sorts::{may_hold, sorts_match};
use sc_terms::{Formula, Memory, Problem};
use std::alloc::Global;

/// What is due for an element, where it is of the sets' sort, of two sets that may be equal.
fn due_move(
    alloc: Global,
    problem: &Problem,
    path: &Path,
    element: u32,
    first: u32,
    second: u32,
) -> Result<Option<Due>, Memory>
    ensures { IfOk result (λ due. MatchOption due (sorts.may_hold problem.now first element ≡ true → MovesStand path.now.facts element first second) (IsDue problem.now path.now.facts)) }
{
    if !may_hold(problem, first, element) {
        return Ok(None);
    }
    let across = due_step(
        alloc,
        problem,
        path,
        PlainStep::Move(element, first, second),
    )?;
    if across.is_some() {
        return Ok(across);
    }
    let back = due_step(
        alloc,
        problem,
        path,
        PlainStep::Move(element, second, first),
    )?;
    Ok(back)
}

/// What is due for the elements of two sets that may be equal.
fn due_moves_of(
    alloc: Global,
    problem: &Problem,
    path: &Path,
    first: u32,
    second: u32,
) -> Result<Option<Due>, Memory>
    ensures { IfOk result (λ due. MatchOption due (AreMoved problem.now path.now.facts first second) (IsDue problem.now path.now.facts)) }
{
    for place in 0..problem.counts().elements {
        let due = due_move(alloc, problem, path, place + 1, first, second)?;
        if due.is_some() {
            return Ok(due);
        }
    }
    Ok(None)
}

/// What is due at a formula, where it is an equation of sets that holds.
fn due_moves_at(
    alloc: Global,
    problem: &Problem,
    path: &Path,
    number: u32,
) -> Result<Option<Due>, Memory>
    requires { IsIn (length problem.now.formulas) number }
    ensures { IfOk result (λ due. MatchOption due (HasMoves problem.now path.now.facts number) (IsDue problem.now path.now.facts)) }
{
    let Formula::EqSet(first, second) = problem.formula(number) else {
        return Ok(None);
    };
    due_moves_of(alloc, problem, path, *first, *second)
}

/// What is due at equations of sets that hold, or nothing exactly where the path has all that follows from them.
pub(crate) fn due_moves(
    alloc: Global,
    problem: &Problem,
    path: &Path,
) -> Result<Option<Due>, Memory>
    ensures { IfOk result (λ due. MatchOption due ((n : ℕ) → IsIn (length problem.now.formulas) n → HasMoves problem.now path.now.facts n) (IsDue problem.now path.now.facts)) }
{
    for place in 0..problem.counts().formulas {
        let due = due_moves_at(alloc, problem, path, place + 1)?;
        if due.is_some() {
            return Ok(due);
        }
    }
    Ok(None)
}

/// Whether the path has an element in one of two sets, and not in the other.
fn tells(path: &Path, element: u32, first: u32, second: u32) -> bool
    ensures { result ≡ spec.tells path.now.facts element first second }
{
    (path.has(&Fact::Member(element, first, true))
        && path.has(&Fact::Member(element, second, false)))
        || (path.has(&Fact::Member(element, first, false))
            && path.has(&Fact::Member(element, second, true)))
}

/// Whether an element is of the sort of two sets, and tells them apart.
fn tells_of_sort(problem: &Problem, path: &Path, element: u32, first: u32, second: u32) -> bool
    ensures { result ≡ (sorts.may_hold problem.now first element && spec.tells path.now.facts element first second) }
{
    may_hold(problem, first, element) && tells(path, element, first, second)
}

/// Whether an element of the sets' sort tells them apart.
fn are_told_apart(problem: &Problem, path: &Path, first: u32, second: u32) -> bool
    ensures told { result ≡ true → AreToldApart problem.now path.now.facts first second }
    ensures untold { result ≡ false → AreUntold problem.now path.now.facts first second }
{
    for place in 0..problem.counts().elements {
        if tells_of_sort(problem, path, place + 1, first, second) {
            return true;
        }
    }
    false
}

/// What is due at a formula, where it is an equation of sets that differ.
fn due_differ_at(problem: &Problem, path: &Path, number: u32) -> Option<Due>
    requires number { IsIn (length problem.now.formulas) number }
    requires script { IsOfScript problem.now }
    requires consistent { HasNoClash path.now.facts }
    ensures { MatchOption result (IsTold problem.now path.now.facts number) (IsDue problem.now path.now.facts) }
{
    sorts_match();
    let _roots = problem.roots();
    let Formula::EqSet(first, second) = problem.formula(number) else {
        return None;
    };
    if !path.has(&same_set_fact(*first, *second, false)) {
        return None;
    }
    if are_told_apart(problem, path, *first, *second) {
        return None;
    }
    if first == second {
        return Some(Due::Take(PlainStep::SeqRefl(*first)));
    }
    Some(Due::Split(PlainStep::Differ(*first, *second)))
}

/// What is due at equations of sets that differ, or nothing exactly where all that differ are told apart.
pub(crate) fn due_differ(problem: &Problem, path: &Path) -> Option<Due>
    requires script { IsOfScript problem.now }
    requires consistent { HasNoClash path.now.facts }
    ensures { MatchOption result ((n : ℕ) → IsIn (length problem.now.formulas) n → IsTold problem.now path.now.facts n) (IsDue problem.now path.now.facts) }
{
    for place in 0..problem.counts().formulas {
        let due = due_differ_at(problem, path, place + 1);
        if due.is_some() {
            return due;
        }
    }
    None
}
