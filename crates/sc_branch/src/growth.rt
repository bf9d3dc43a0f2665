//! A path that grows step by step.

ghost use Rattle.std.specs.Prelude.{◌≡◌, ◌≢◌, ◌<◌, ◌&&◌, true, [], ◌∷◌, length, Some, IfOk, OnOk};
ghost use Rattle.std.specs.List.{list_all};
ghost use Rattle.std.specs.Option.{option_copied};
ghost use Rattle.sc_facts.specs.Facts.{has};
ghost use Rattle.sc_rules.specs.Steps.{branches};
ghost use Rattle.sc_tree.specs.Lean as spec;
ghost use Rattle.sc_branch.specs.Clashes.{IsClash};
ghost use Rattle.sc_model.specs.Deciding.{Concludes, Divides, sole};
ghost use Rattle.sc_model.specs.Deciding as deciding;
ghost use Rattle.sc_branch.specs.Growing.{GoesOn, Adds};

use crate::clash::{clash_of, first_clash, name_of};
use sc_deriv::{Step, Steps, Taken};
use sc_facts::{Fact, FactName, Facts, Path};
use sc_rules::{Branches, PlainStep, StepError, apply, conclusion};
use sc_terms::{Memory, Problem};
use sc_tree::Chain;
use std::alloc::Global;
use std::marker::Model;
use std::mem;

/// A path, the steps that lead to it, and those of them that were taken last; seen as these three.
#[derive(Drop)]
pub(crate) struct Growing {
    path: Path,
    steps: Steps,
    chain: Chain,
    /// A name that clashes on the path, if there is one.
    clash: Option<FactName>,
}

impl Model for Growing {
    ghost use Rattle.sc_branch.specs.Growing.{Growth};
    ghost use Rattle.sc_branch.specs.Clashes.{IsClash};

    ghost Value = { Growth };

    ghost view = { λ g. record { path = g.path; steps = g.steps; chain = g.chain } };

    ghost invariant = { λ g. IsClash g.path.facts g.clash };
}

/// The fact, where it is no row.
fn no_row(fact: Fact) -> Option<Fact>
    ensures { result ≡ deciding.no_row fact }
{
    match fact {
        Fact::Row(_) => None,
        fact => Some(fact),
    }
}

/// The fact that a step concludes, where it concludes one alone, which is no row, in one branch. It takes no memory.
#[tactic(auto, using(crate::proofs::Sole::sole_alone))]
fn fact_of(problem: &Problem, path: &Path, step: &PlainStep) -> Option<Fact>
    ensures { result ≡ sole (branches problem.now path.now.facts step.now) }
{
    no_row(conclusion(problem, path, step)?)
}

/// Whether all of the facts are on the path.
fn has_all(path: &Path, facts: &[Fact]) -> bool
    ensures { result ≡ list_all (has path.now.facts) facts.now }
{
    facts.iter().all(|fact| path.has(fact))
}

/// Whether some of the facts is not on the path.
fn brings_more(path: &Path, facts: &Facts) -> bool
    ensures { result ≡ spec.brings_more path.now.facts facts.now }
{
    !has_all(path, facts.as_slice())
}

/// Whether some fact of each of two lists is not on the path.
fn both_bring_more(path: &Path, first: &Facts, second: &Facts) -> bool
    ensures { result ≡ (spec.brings_more path.now.facts first.now && spec.brings_more path.now.facts second.now) }
{
    brings_more(path, first) && brings_more(path, second)
}

impl Growing {
    /// A path to which these steps lead, with no steps taken last.
    pub(crate) fn new(alloc: Global, path: Path, steps: Steps) -> Result<Growing, Memory>
        ensures { IfOk result (λ g. g ≡ record { path = path; steps = steps; chain = [] }) }
    {
        let clash = first_clash(&path)?;
        Ok(Growing {
            path,
            steps,
            chain: Chain::new(alloc),
            clash,
        })
    }

    pub(crate) fn path(&self) -> &Path
        ensures { result.now ≡ self.now.path }
    {
        &self.path
    }

    /// How many steps lead to the path.
    pub(crate) fn len(&self) -> usize
        ensures { result ≡ length self.now.steps }
    {
        self.steps.len()
    }

    /// A name that clashes on the path, or nothing exactly where there is none.
    pub(crate) fn clash(&self) -> Option<&FactName>
        ensures { IsClash self.now.path.facts (option_copied result) }
    {
        self.clash.as_ref()
    }

    /// Takes out the steps that were taken last.
    pub(crate) fn take_chain(&mut self, alloc: Global) -> Chain
        ensures chain { result ≡ self.old.chain }
        ensures rest { self.new ≡ record { path = self.old.path; steps = self.old.steps; chain = [] } }
    {
        mem::replace(&mut self.chain, Chain::new(alloc))
    }

    /// Adds a step that brings this fact.
    fn add(&mut self, step: PlainStep, fact: Fact) -> Result<(), Memory>
        ensures { OnOk result (Adds step fact self.old self.new) }
    {
        let name = name_of(&fact)?;
        self.chain.push(Step::Plain(step.clone()?))?;
        self.steps.push(Taken {
            step: Step::Plain(step),
            branch: 1,
        })?;
        self.path.push(fact)?;
        if let None = &self.clash {
            self.clash = clash_of(&self.path, name);
        }
        Ok(())
    }

    /// Adds a fact that no step concludes: the steps no longer lead to the path. For paths beside the search's own.
    pub(crate) fn assume(&mut self, fact: Fact) -> Result<(), Memory> {
        let name = name_of(&fact)?;
        self.path.push(fact)?;
        if let None = &self.clash {
            self.clash = clash_of(&self.path, name);
        }
        Ok(())
    }

    /// Takes a step, where it concludes a new fact alone, in one branch, and the budget has room for it.
    pub(crate) fn attempt(
        &mut self,
        alloc: Global,
        problem: &Problem,
        budget: u64,
        step: PlainStep,
    ) -> Result<(), Memory>
        ensures goes { OnOk result (GoesOn problem.now budget self.old self.new) }
        ensures taken { OnOk result (Concludes problem.now self.old.path.facts step → length self.old.steps < budget → self.new.chain ≢ []) }
    {
        if self.steps.len() as u64 >= budget {
            return Ok(());
        }
        let Some(fact) = fact_of(problem, &self.path, &step) else {
            return Ok(());
        };
        if self.path.has(&fact) {
            return Ok(());
        }
        self.add(step, fact)?;
        Ok(())
    }

    /// Whether the step has two branches at the path, each of which brings a fact that the path lacks.
    pub(crate) fn can_split(
        &self,
        alloc: Global,
        problem: &Problem,
        step: &PlainStep,
    ) -> Result<bool, Memory>
        ensures { IfOk result (λ yes. yes ≡ true → Divides problem.now self.now.path.facts step.now) }
    {
        match apply(alloc, problem, &self.path, step) {
            Ok(Branches::Two(first, second)) => { Ok(both_bring_more(&self.path, &first, &second)) }
            Ok(Branches::One(_)) => Ok(false),
            Err(StepError::NotApplicable) => Ok(false),
            Err(StepError::Memory) => Err(Memory),
        }
    }
}
