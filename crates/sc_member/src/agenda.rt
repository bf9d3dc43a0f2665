//! What is still to be tried.

ghost use Rattle.std.specs.Prelude.{◌≡◌, [], ◌∷◌, Some, drop, IfOk, MatchOption};
ghost use Rattle.sc_rules.specs.Steps.{branches};
ghost use Rattle.sc_member.specs.Memberships.{Carries, Forces, IsIdle};
ghost use Rattle.sc_member.specs.Candidates.{AllIdle, AllCarry, NothingAfter, SetsIdle, FactsIdle, brings};

use crate::candidates::{steps_of_fact, steps_of_set};
use crate::index::Index;
use sc_classes::Classes;
use sc_facts::{Facts, Path};
use sc_rules::{Branches, PlainStep, StepError, apply};
use sc_terms::{Memory, Problem};
use std::alloc::Global;

/// Steps to be tried, and how far the set terms and the facts were gone through.
#[derive(Drop)]
pub(crate) struct Agenda {
    pub pending: Vec<PlainStep>,
    /// The number of the last set term that was gone through.
    pub set: u32,
    /// How many facts were gone through.
    pub place: usize,
}

/// Whether the facts are one alone, which is not on the path.
fn is_one_new(path: &Path, facts: &Facts) -> bool
    ensures { result ≡ brings path.now.facts (Some (facts.now ∷ [])) }
{
    match facts.as_slice() {
        [fact] => !path.has(fact),
        _ => false,
    }
}

/// Whether a step applies and concludes one fact alone, which is not on the path.
fn concludes_new(
    alloc: Global,
    problem: &Problem,
    path: &Path,
    step: &PlainStep,
) -> Result<bool, Memory>
    ensures { IfOk result (λ new. new ≡ brings path.now.facts (branches problem.now path.now.facts step.now)) }
{
    match apply(alloc, problem, path, step) {
        Ok(Branches::One(facts)) => Ok(is_one_new(path, &facts)),
        Ok(Branches::Two(_, _)) => Ok(false),
        Err(StepError::NotApplicable) => Ok(false),
        Err(StepError::Memory) => Err(Memory),
    }
}

/// The step, where it concludes a fact that is not on the path.
#[tactic(auto, using(crate::proofs::Trying::is_idle, crate::proofs::Trying::is_forced))]
fn tried(
    alloc: Global,
    problem: &Problem,
    path: &Path,
    step: PlainStep,
) -> Result<Option<PlainStep>, Memory>
    requires { Carries step }
    ensures { IfOk result (λ found. MatchOption found (IsIdle problem.now path.now.facts step) (Forces problem.now path.now.facts)) }
{
    let new = concludes_new(alloc, problem, path, &step)?;
    if new {
        return Ok(Some(step));
    }
    Ok(None)
}

/// Takes steps off the end until one concludes a fact that is not on the path.
#[tactic(auto, using(crate::proofs::Trying::all_front, crate::proofs::Trying::all_last, crate::proofs::Trying::all_more))]
fn tried_each(
    alloc: Global,
    problem: &Problem,
    path: &Path,
    pending: &mut Vec<PlainStep>,
) -> Result<Option<PlainStep>, Memory>
    requires { AllCarry pending.old.items }
    ensures kinds { AllCarry pending.new.items }
    ensures found { IfOk result (λ found. MatchOption found (AllIdle problem.now path.now.facts pending.old.items) (Forces problem.now path.now.facts)) }
{
    while let Some(step) = pending.pop() {
        let found = tried(alloc, problem, path, step)?;
        if found.is_some() {
            return Ok(found);
        }
    }
    Ok(None)
}

impl Agenda {
    /// No steps, and nothing gone through.
    pub(crate) fn new(alloc: Global) -> Agenda
        ensures { AllCarry result.pending.items }
    {
        Agenda {
            pending: Vec::new(alloc),
            set: 0,
            place: 0,
        }
    }

    /// The set terms and the facts are to be gone through from the first on.
    pub(crate) fn restart(&mut self)
        ensures pending { self.new.pending ≡ self.old.pending }
        ensures set { self.new.set ≡ 0 }
        ensures place { self.new.place ≡ 0 }
    {
        self.set = 0;
        self.place = 0;
    }

    /// Goes through the set terms that are left, until a step of theirs forces something.
    fn tried_sets(
        &mut self,
        alloc: Global,
        problem: &Problem,
        path: &Path,
    ) -> Result<Option<PlainStep>, Memory>
        requires { AllCarry self.old.pending.items }
        ensures kinds { AllCarry self.new.pending.items }
        ensures place { self.new.place ≡ self.old.place }
        ensures found { IfOk result (λ found. MatchOption found (SetsIdle problem.now path.now.facts self.old.set) (Forces problem.now path.now.facts)) }
    {
        let count = problem.counts().sets;
        for number in self.set..count {
            self.pending = steps_of_set(alloc, problem, number + 1)?;
            self.set = number + 1;
            let found = tried_each(alloc, problem, path, &mut self.pending)?;
            if found.is_some() {
                return Ok(found);
            }
        }
        Ok(None)
    }

    /// Goes through the facts that are left, until a step of theirs forces something.
    fn tried_facts(
        &mut self,
        alloc: Global,
        problem: &Problem,
        path: &Path,
        index: &Index,
        classes: &Classes,
    ) -> Result<Option<PlainStep>, Memory>
        requires { AllCarry self.old.pending.items }
        ensures kinds { AllCarry self.new.pending.items }
        ensures found { IfOk result (λ found. MatchOption found (FactsIdle problem.now path.now.facts (record { parents = index.now.parents; singles = index.now.singles; partners = index.now.partners; pairs = classes.now.pairs }) (drop self.old.place path.now.facts)) (Forces problem.now path.now.facts)) }
    {
        let facts = path.facts();
        for place in self.place..facts.len() {
            self.pending = steps_of_fact(alloc, index, classes, &facts[place])?;
            self.place = place + 1;
            let found = tried_each(alloc, problem, path, &mut self.pending)?;
            if found.is_some() {
                return Ok(found);
            }
        }
        Ok(None)
    }

    /// Tries the steps that are left, then those of the set terms and of the facts that were not gone through, until one forces something.
    pub(crate) fn tried_rest(
        &mut self,
        alloc: Global,
        problem: &Problem,
        path: &Path,
        index: &Index,
        classes: &Classes,
    ) -> Result<Option<PlainStep>, Memory>
        requires { AllCarry self.old.pending.items }
        ensures kinds { AllCarry self.new.pending.items }
        ensures found { IfOk result (λ found. MatchOption found (NothingAfter problem.now path.now.facts (record { parents = index.now.parents; singles = index.now.singles; partners = index.now.partners; pairs = classes.now.pairs }) self.old.set self.old.place) (Forces problem.now path.now.facts)) }
    {
        let pending = tried_each(alloc, problem, path, &mut self.pending)?;
        if pending.is_some() {
            return Ok(pending);
        }
        let by_sets = self.tried_sets(alloc, problem, path)?;
        if by_sets.is_some() {
            return Ok(by_sets);
        }
        self.tried_facts(alloc, problem, path, index, classes)
    }
}
