//! Steps that are due.

ghost use Rattle.std.specs.Prelude.{◌≡◌, [], ◌∷◌, false, Some, IfOk, MatchOption};
ghost use Rattle.sc_rules.specs.Steps.{branches};
ghost use Rattle.sc_model.specs.Deciding.{sole, is_lacking, IsDue};

use sc_facts::{Fact, Facts, Path};
use sc_rules::{Branches, PlainStep, StepError, apply};
use sc_terms::{Memory, Problem};
use std::alloc::Global;

/// What is due.
#[derive(Drop)]
pub enum Due {
    /// A step that concludes one fact, which the path lacks.
    Take(PlainStep),
    /// A step with two branches, each of which brings a fact that the path lacks.
    Split(PlainStep),
}

/// Whether the facts are one alone, which is no row and is not on the path.
fn is_one_lacking(path: &Path, facts: &Facts) -> bool
    ensures { result ≡ is_lacking path.now.facts (sole (Some (facts.now ∷ []))) }
{
    match facts.as_slice() {
        [Fact::Row(_)] => false,
        [fact] => !path.has(fact),
        _ => false,
    }
}

/// Whether a step concludes one fact alone, which is no row and is not on the path.
pub(crate) fn concludes_new(
    alloc: Global,
    problem: &Problem,
    path: &Path,
    step: &PlainStep,
) -> Result<bool, Memory>
    ensures { IfOk result (λ new. new ≡ is_lacking path.now.facts (sole (branches problem.now path.now.facts step.now))) }
{
    match apply(alloc, problem, path, step) {
        Ok(Branches::One(facts)) => Ok(is_one_lacking(path, &facts)),
        Ok(Branches::Two(_, _)) => Ok(false),
        Err(StepError::NotApplicable) => Ok(false),
        Err(StepError::Memory) => Err(Memory),
    }
}

/// The step, where it concludes one fact that the path lacks.
pub(crate) fn due_step(
    alloc: Global,
    problem: &Problem,
    path: &Path,
    step: PlainStep,
) -> Result<Option<Due>, Memory>
    ensures { IfOk result (λ due. MatchOption due (is_lacking path.now.facts (sole (branches problem.now path.now.facts step)) ≡ false) (IsDue problem.now path.now.facts)) }
{
    let new = concludes_new(alloc, problem, path, &step)?;
    if new {
        return Ok(Some(Due::Take(step)));
    }
    Ok(None)
}
