//! Why elements of one class are equal: the next step that says so.

ghost use Rattle.std.specs.Prelude.{◌≡◌, true, length, ⊤, IfOk, MatchOption};
ghost use Rattle.sc_rules.specs.Pairs.{equal};
ghost use Rattle.sc_classes.specs.Explanations.{HoldsPairs};
ghost use Rattle.sc_model.specs.Deciding as spec;
ghost use Rattle.sc_model.specs.Deciding.{Concludes, PassesOn, AllPassOn, AreLabelsOf};

use crate::model::label_of;
use crate::steps::concludes_new;
use sc_classes::Classes;
use sc_facts::Path;
use sc_rules::{PlainStep, equal_fact};
use sc_terms::{Memory, Problem};
use std::alloc::Global;

/// Whether the second element is the first, or the path has them as equal.
fn is_linked(path: &Path, first: u32, second: u32) -> bool
    ensures { result ≡ spec.is_linked path.now.facts first second }
{
    first == second || path.has(&equal_fact(first, second, true))
}

/// The step that links the other one of a pair to an element, where the path has one of the pair alone as linked to it.
fn link_by(problem: &Problem, path: &Path, element: u32, pair: (u32, u32)) -> Option<PlainStep>
    requires { equal path.now.facts pair.0 pair.1 true ≡ true }
    ensures { MatchOption result (PassesOn path.now.facts element pair) (Concludes problem.now path.now.facts) }
{
    let _problem = problem;
    let (first, second) = pair;
    let has_first = is_linked(path, element, first);
    let has_second = is_linked(path, element, second);
    if has_first && !has_second {
        return Some(PlainStep::EqStep(element, first, second));
    }
    if has_second && !has_first {
        return Some(PlainStep::EqStep(element, second, first));
    }
    None
}

/// A step that links one more element to this one along a pair that the path has as equal, or nothing where no pair has one of its two linked alone.
fn link(problem: &Problem, path: &Path, pairs: &[(u32, u32)], element: u32) -> Option<PlainStep>
    requires { HoldsPairs pairs.now path.now.facts }
    ensures { MatchOption result (AllPassOn path.now.facts element pairs.now) (Concludes problem.now path.now.facts) }
{
    for pair in pairs {
        let step = link_by(problem, path, element, *pair);
        if step.is_some() {
            return step;
        }
    }
    None
}

/// A copy of the step, where it concludes a fact that the path lacks.
fn new_step(
    alloc: Global,
    problem: &Problem,
    path: &Path,
    step: &PlainStep,
) -> Result<Option<PlainStep>, Memory>
    ensures { IfOk result (λ found. MatchOption found ⊤ (Concludes problem.now path.now.facts)) }
{
    let new = concludes_new(alloc, problem, path, step)?;
    if new {
        let copy = step.clone()?;
        return Ok(Some(copy));
    }
    Ok(None)
}

/// The first of the steps that concludes a fact that the path lacks.
fn first_new(
    alloc: Global,
    problem: &Problem,
    path: &Path,
    steps: &[PlainStep],
) -> Result<Option<PlainStep>, Memory>
    ensures { IfOk result (λ step. MatchOption step ⊤ (Concludes problem.now path.now.facts)) }
{
    for step in steps {
        let found = new_step(alloc, problem, path, step)?;
        if found.is_some() {
            return Ok(found);
        }
    }
    Ok(None)
}

/// The first step of a shortest explanation why two elements of one class are equal that says something new.
fn explained(
    alloc: Global,
    problem: &Problem,
    path: &Path,
    classes: &Classes,
    labels: &[u32],
    first: u32,
    second: u32,
) -> Result<Option<PlainStep>, Memory>
    requires { AreLabelsOf problem.now path.now.facts classes.now labels.now }
    ensures { IfOk result (λ step. MatchOption step ⊤ (Concludes problem.now path.now.facts)) }
{
    let count = classes.count();
    if first == 0 || second == 0 || first > count || second > count {
        return Ok(None);
    }
    if label_of(labels, first) != label_of(labels, second) {
        return Ok(None);
    }
    let steps = classes.explain(alloc, first, second)?;
    first_new(alloc, problem, path, steps.as_slice())
}

/// A step on the way to the second element's being said to equal the first, or nothing where no pair has one of its two linked to the first alone.
pub(crate) fn due_equal(
    alloc: Global,
    problem: &Problem,
    path: &Path,
    classes: &Classes,
    labels: &[u32],
    first: u32,
    second: u32,
) -> Result<Option<PlainStep>, Memory>
    requires { AreLabelsOf problem.now path.now.facts classes.now labels.now }
    ensures { IfOk result (λ step. MatchOption step (AllPassOn path.now.facts first classes.now.pairs) (Concludes problem.now path.now.facts)) }
{
    let step = explained(alloc, problem, path, classes, labels, first, second)?;
    if step.is_some() {
        return Ok(step);
    }
    Ok(link(problem, path, classes.pairs(), first))
}
