//! Steps along a chain of merged pairs.

ghost use Rattle.std.specs.Prelude.{◌≡◌, ◌≢◌, ◌<◌, ℕ, List, length, IfOk};
ghost use Rattle.sc_terms.specs.declared.problem.Parts.{Parts};
ghost use Rattle.sc_terms.specs.Conditions.{IsIn};
ghost use Rattle.sc_classes.specs.Searches as spec;
ghost use Rattle.sc_classes.specs.Searches.{FallBack, IsChain};
ghost use Rattle.sc_classes.specs.Explanations.{short_steps, Follows, Explains};

use crate::chains::{Visit, visit_at};
use crate::classes::PlainSteps;
use sc_rules::PlainStep;
use sc_terms::Memory;
use std::alloc::Global;

/// The step that an element equals itself, and, where there is another one, which is said to equal it, that it does.
fn short(alloc: Global, e: u32, f: u32) -> Result<PlainSteps, Memory>
    ensures { IfOk result (λ steps. steps ≡ short_steps e f) }
{
    let mut steps = PlainSteps::new(alloc);
    steps.push(PlainStep::EqRefl(e))?;
    if e != f {
        steps.push(PlainStep::EqStep(e, e, f))?;
    }
    Ok(steps)
}

/// The steps from an element along the chain that begins with its neighbour at a place, which is not the last of the chain.
fn long(alloc: Global, visits: &[Visit], e: u32, second: usize) -> Result<PlainSteps, Memory>
    requires back { FallBack visits.now }
    requires within { second < length visits.now }
    requires apart { second ≢ 0 }
    ensures { IfOk result (λ steps. Follows visits.now e second steps) }
{
    let first = visit_at(visits, second);
    let mut at = first.from;
    let mut steps = PlainSteps::new(alloc);
    steps.push(PlainStep::EqStep(e, first.number, visit_at(visits, at).number))?;
    while at > 0 {
        let here = visit_at(visits, at);
        let next = visit_at(visits, here.from);
        steps.push(PlainStep::EqStep(e, here.number, next.number))?;
        at = here.from;
    }
    Ok(steps)
}

/// The steps that explain why the element at a place equals the first that was met.
pub(crate) fn steps_along(
    alloc: Global,
    visits: &[Visit],
    place: usize,
) -> Result<PlainSteps, Memory>
    requires first { (spec.visit_at visits.now 0).from ≡ 0 }
    requires back { FallBack visits.now }
    requires within { place < length visits.now }
    ensures { (problem : Parts) → (pairs : List (ℕ × ℕ)) → (start : ℕ) → (goal : ℕ) → IsIn (length problem.elements) goal → IsChain pairs start goal visits.now place → IfOk result (λ steps. Explains problem pairs goal start steps) }
{
    let here = visit_at(visits, place);
    if here.from == 0 {
        return short(alloc, here.number, visit_at(visits, 0).number);
    }
    long(alloc, visits, here.number, here.from)
}
