//! A branch of the search.

ghost use Rattle.std.specs.Prelude.{◌≡◌, ◌<◌, length, IfOk, OnOk, OnErr, IfSome};
ghost use Rattle.sc_sorts.specs.Posed.{IsOfScript, IsIntless, IsPosed};
ghost use Rattle.sc_terms.specs.Values.{Shows};
ghost use Rattle.sc_model.specs.Deciding.{Concludes, Divides};
ghost use Rattle.sc_tree.specs.Events.{AllowsOn, HasNoClash};
ghost use Rattle.sc_branch.specs.Growing.{IsHeldAfter, IsOn};

use crate::candidate::{Tried, values_of};
use crate::growth::Growing;
use crate::guess::Stuck;
use crate::labels::labelled;
use crate::refine::{needed_split, useful_split};
use crate::seen::Seen;
use crate::shadow::shadow_of;
use crate::spread::{Tables, spread};
use crate::task::{Fixed, Task};
use crate::trials::Trials;
use sc_deriv::{Closing, Step, Steps};
use sc_facts::Path;
use sc_model::{Due, first_due, model_of};
use sc_rules::PlainStep;
use sc_terms::{Bank, Interp, Memory, Problem};
use sc_tree::{Cause, Event};
use std::alloc::Global;
use std::marker::Model;
use std::snapshot::Snapshot;

/// A path of a problem, with the steps that lead to it; seen as the problem, the path and the steps.
#[derive(Drop)]
pub struct Branch {
    about: Snapshot<Problem>,
    alloc: Global,
    growing: Growing,
    fixed: Fixed,
    tables: Tables,
    trials: Trials,
}

impl Model for Branch {
    ghost use Rattle.std.specs.Prelude.{◌≡◌, []};
    ghost use Rattle.sc_branch.specs.Growing.{Held};

    ghost Value = { Held };

    ghost view = { λ b. record { problem = b.about.value; path = b.growing.path; steps = b.growing.steps } };

    ghost invariant = { λ b. b.growing.chain ≡ [] };
}

impl Branch {
    /// The branch with this path of the problem, to which the steps lead from the root path. The only error is want of memory. The time is linear in the sizes of the problem and the path.
    pub fn from_path(
        alloc: Global,
        problem: &Problem,
        path: Path,
        steps: Steps,
    ) -> Result<Branch, Memory>
        ensures { IfOk result (λ branch. branch ≡ record { problem = problem.now; path = path; steps = steps }) }
    {
        Ok(Branch {
            about: Snapshot::of(problem),
            alloc,
            fixed: Fixed::new(alloc, problem)?,
            tables: Tables::new(alloc, problem)?,
            trials: Trials::new(&steps),
            growing: Growing::new(alloc, path, steps)?,
        })
    }

    /// Goes over to another path of the branch's problem, to which these steps lead from the root path. What was found out of the problem is kept. The only error is want of memory, after which the branch is as before.
    pub fn change(&mut self, problem: &Problem, path: Path, steps: Steps) -> Result<(), Memory>
        requires about { self.old.problem ≡ problem.now }
        ensures ok { OnOk result (self.new ≡ record { problem = self.old.problem; path = path; steps = steps }) }
        ensures err { OnErr result (self.new ≡ self.old) }
    {
        let tables = Tables::new(self.alloc, problem)?;
        let trials = self.trials.at(&steps);
        let growing = Growing::new(self.alloc, path, steps)?;
        self.tables = tables;
        self.trials = trials;
        self.growing = growing;
        Ok(())
    }

    /// What the path says.
    fn seen<'a>(&'a self, problem: &'a Problem) -> Seen<'a>
        ensures { result.problem.now ≡ problem.now }
    {
        Seen {
            problem,
            fixed: &self.fixed,
            path: self.growing.path(),
            said: &self.tables.said,
        }
    }

    /// What may be done at a leaf with this path, so that the search goes on: the leaf is closed where a clash stands on the path. Else the path goes on by steps that each conclude a new fact. Else values that are read off the path, with guesses beside it, may be tried on the assertions, and are found where they make every one true; else the leaf is split, by a cut on a formula or a membership, or on which of two different sets has their differing element, or the path takes a step that is due. Where nothing is due, the values that are read off the path are found.
    ///
    /// `problem` is the one with which the branch was made, and one that may be decided (`IsPosed`); `bank` has the nodes of which it is made: the assertions are tried there. `budget` is the greatest number of steps on a path, and the steps must lead to the path from the root path, leanly and within it; the leaf is given up only where the path has so many steps and no clash stands. The only error is want of memory, after which the branch is of no further use.
    pub fn advance(&mut self, problem: &Problem, bank: &Bank, budget: u64) -> Result<Event, Memory>
        requires about { self.old.problem ≡ problem.now }
        requires posed { IsPosed problem.now bank.now }
        requires on { IsOn problem.now budget self.old.path.facts self.old.steps }
        ensures allowed { IfOk result (AllowsOn problem.now budget self.old.path.facts self.old.steps) }
        ensures held { IfOk result (λ event. IsHeldAfter problem.now self.old event self.new) }
    {
        if let Some(name) = self.growing.clash() {
            return Ok(Event::Close(Closing::Clash(name.clone()?)));
        }
        let task = Task {
            alloc: self.alloc,
            problem,
            fixed: &self.fixed,
            budget,
        };
        let spread = spread(&mut self.growing, &mut self.tables, task);
        let chain = self.growing.take_chain(self.alloc);
        spread?;
        if !chain.is_empty() {
            return Ok(Event::Grow(chain));
        }
        let event = self.decide(problem, bank, budget)?;
        Ok(event)
    }

    /// What may be done at a leaf with this path, on which no clash stands.
    fn decide(&mut self, problem: &Problem, bank: &Bank, budget: u64) -> Result<Event, Memory>
        requires about { self.old.problem ≡ problem.now }
        requires posed { IsPosed problem.now bank.now }
        requires on { IsOn problem.now budget self.old.path.facts self.old.steps }
        requires apart { HasNoClash self.old.path.facts }
        ensures allowed { IfOk result (AllowsOn problem.now budget self.old.path.facts self.old.steps) }
        ensures held { IfOk result (λ event. IsHeldAfter problem.now self.old event self.new) }
    {
        let needed = needed_split(&self.growing, self.seen(problem), self.alloc)?;
        let full = self.growing.len() as u64 >= budget;
        let mut stuck = None;
        if needed.is_none() || self.trials.begin_plainly() {
            let tried = self.values(problem, bank)?;
            stuck = tried.stuck;
            if let Some(values) = tried.values {
                return Ok(Event::Found(values));
            }
        }
        if self.trials.begin(full) {
            if let Some(values) = self.shadow_values(problem, bank, full)? {
                return Ok(Event::Found(values));
            }
        }
        if full {
            return Ok(Event::Spend(Cause::Budget));
        }
        match self.split(problem, needed, stuck)? {
            Some(step) => Ok(self.split_by(problem, budget, step)),
            None => self.settle(problem, budget),
        }
    }

    /// The values that are read off the path with guesses of memberships beside it, where they make the problem true.
    fn values(&self, problem: &Problem, bank: &Bank) -> Result<Tried, Memory>
        requires posed { IsPosed problem.now bank.now }
        ensures { IfOk result (λ tried. IfSome tried.values (Shows problem.now)) }
    {
        let found = values_of(self.alloc, bank, self.seen(problem))?;
        Ok(found)
    }

    /// The values that are read off the path with all that follows from it, without any limit on steps, with guesses beside it, where they make the problem true. Signs of open formulas are guessed where the leaf is full or a split leads to it.
    fn shadow_values(
        &self,
        problem: &Problem,
        bank: &Bank,
        full: bool,
    ) -> Result<Option<Interp>, Memory>
        requires posed { IsPosed problem.now bank.now }
        ensures { IfOk result (λ values. IfSome values (Shows problem.now)) }
    {
        let task = Task {
            alloc: self.alloc,
            problem,
            fixed: &self.fixed,
            budget: u64::MAX,
        };
        let signs = self.trials.may_guess(full);
        let Some(shadow) = shadow_of(task, self.growing.path(), signs)? else {
            return Ok(None);
        };
        let found = values_of(self.alloc, bank, shadow.seen(task))?;
        Ok(found.values)
    }

    /// A split that looks useful, where there is one: the needed one, or else one on a membership, of the element whose memberships could not be guessed, if there is one.
    fn split(
        &self,
        problem: &Problem,
        needed: Option<PlainStep>,
        stuck: Option<Stuck>,
    ) -> Result<Option<PlainStep>, Memory>
        ensures { IfOk result (λ step. IfSome step (Divides problem.now self.now.path.facts)) }
    {
        let proposed = match needed {
            Some(step) => Some(step),
            None => useful_split(self.seen(problem), self.alloc, stuck)?,
        };
        let Some(step) = proposed else {
            return Ok(None);
        };
        if self.growing.can_split(self.alloc, problem, &step)? {
            return Ok(Some(step));
        }
        Ok(None)
    }

    /// The leaf is split by a step each of whose branches brings something new.
    fn split_by(&self, problem: &Problem, budget: u64, step: PlainStep) -> Event
        requires on { IsOn problem.now budget self.now.path.facts self.now.steps }
        requires divides { Divides problem.now self.now.path.facts step }
        requires room { length self.now.steps < budget }
        ensures allowed { AllowsOn problem.now budget self.now.path.facts self.now.steps result }
        ensures held { IsHeldAfter problem.now self.now result self.now }
    {
        Event::Split(Step::Plain(step))
    }

    /// What is due on the path; where nothing is, the values that are read off it are found.
    fn settle(&mut self, problem: &Problem, budget: u64) -> Result<Event, Memory>
        requires script { IsOfScript problem.now }
        requires intless { IsIntless problem.now }
        requires on { IsOn problem.now budget self.old.path.facts self.old.steps }
        requires apart { HasNoClash self.old.path.facts }
        requires room { length self.old.steps < budget }
        ensures allowed { IfOk result (AllowsOn problem.now budget self.old.path.facts self.old.steps) }
        ensures held { IfOk result (λ event. IsHeldAfter problem.now self.old event self.new) }
    {
        let path = self.growing.path();
        let (classes, labels) = labelled(self.alloc, problem, path)?;
        match first_due(self.alloc, problem, path, &classes, labels.as_slice())? {
            None => {
                let values = model_of(self.alloc, problem, path, labels.as_slice())?;
                Ok(Event::Found(values))
            }
            Some(Due::Split(step)) => Ok(self.split_by(problem, budget, step)),
            Some(Due::Take(step)) => self.take(problem, budget, step),
        }
    }

    /// The path goes on by a step that concludes a new fact.
    fn take(&mut self, problem: &Problem, budget: u64, step: PlainStep) -> Result<Event, Memory>
        requires on { IsOn problem.now budget self.old.path.facts self.old.steps }
        requires concludes { Concludes problem.now self.old.path.facts step }
        requires room { length self.old.steps < budget }
        ensures allowed { IfOk result (AllowsOn problem.now budget self.old.path.facts self.old.steps) }
        ensures held { IfOk result (λ event. IsHeldAfter problem.now self.old event self.new) }
    {
        let attempt = self.growing.attempt(self.alloc, problem, budget, step);
        let chain = self.growing.take_chain(self.alloc);
        attempt?;
        Ok(Event::Grow(chain))
    }
}
