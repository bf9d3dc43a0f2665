//! Classes.

ghost use Rattle.std.specs.Prelude.{◌≡◌, ◌≤◌, ℕ, [], length, IfOk, OnOk, OnErr};
ghost use Rattle.std.specs.List.{AllByRecursion};
ghost use Rattle.sc_terms.specs.declared.problem.Parts.{Parts};
ghost use Rattle.sc_terms.specs.Conditions.{IsIn};
ghost use Rattle.sc_classes.specs.Classes.{with_pair, least_of, neighbours_of, IsLeastJoined};
ghost use Rattle.sc_classes.specs.Explanations.{Explains};

use crate::chains::chain_between;
use crate::explain::steps_along;
use crate::forest::{Forest, singles};
use crate::neighbours::{Others, connect, empty_lists, held_at};
use sc_rules::PlainStep;
use sc_terms::{Memory, Problem, Sequence};
use std::alloc::Global;
use std::marker::Model;

/// Steps, one after another.
pub type PlainSteps = Sequence<PlainStep>;

/// Classes of the elements of a problem, by their numbers: those of the least equivalence that holds the merged pairs. Seen as the number of the elements and the merged pairs in order, each with the number that was given with it.
#[derive(Drop)]
pub struct Classes {
    last: u32,
    forest: Forest,
    facts: Vec<usize>,
    neighbours: Vec<Others>,
}

impl Model for Classes {
    ghost use Rattle.std.specs.Prelude.{length};
    ghost use Rattle.sc_classes.specs.Classes.{Merges};
    ghost use Rattle.sc_classes.specs.Forests.{StandsFor, HasNeighbours};

    ghost Value = { Merges };

    ghost view = { λ c. record { count = c.last; pairs = c.forest.pairs.items; facts = c.facts.items } };

    ghost invariant = { λ c. StandsFor c.last c.forest.pairs.items c.forest.parents.items c.forest.ranks.items c.forest.leasts.items × HasNeighbours c.last c.forest.pairs.items c.neighbours.items };
}

impl Classes {
    /// Each element of the problem in a class of its own: no pairs. The only error is want of memory.
    pub fn new(alloc: Global, problem: &Problem) -> Result<Classes, Memory>
        ensures { IfOk result (λ classes. classes ≡ record { count = length problem.now.elements; pairs = []; facts = [] }) }
    {
        let last = problem.counts().elements;
        Ok(Classes {
            last,
            forest: singles(alloc, last)?,
            facts: Vec::new(alloc),
            neighbours: empty_lists(alloc, last)?,
        })
    }

    /// Merges the classes of two elements. Keeps the number `fact` with the pair, as the place on a path of the fact that the two are equal. The only error is want of memory, and then the classes stay as they were.
    pub fn merge(&mut self, e: u32, f: u32, fact: usize) -> Result<(), Memory>
        requires first { e ≤ self.old.count }
        requires second { f ≤ self.old.count }
        ensures ok { OnOk result (self.new ≡ with_pair self.old (e, f) fact) }
        ensures err { OnErr result (self.new ≡ self.old) }
    {
        self.forest.pairs.reserve(1)?;
        self.facts.reserve(1)?;
        connect(&mut self.neighbours, e, f)?;
        self.facts.push_reserved(fact);
        self.forest.unite(self.last, e, f);
        Ok(())
    }

    /// How many elements there are.
    pub fn count(&self) -> u32
        ensures { result ≡ self.now.count }
    {
        self.last
    }

    /// The merged pairs in order.
    pub fn pairs(&self) -> &[(u32, u32)]
        ensures { result.now ≡ self.now.pairs }
    {
        self.forest.pairs.as_slice()
    }

    /// The numbers that were given with the pairs, in their order.
    pub fn facts(&self) -> &[usize]
        ensures { result.now ≡ self.now.facts }
    {
        self.facts.as_slice()
    }

    /// The least element of an element's class. Two elements have the same one exactly where they are in one class. The time is at most logarithmic in the size of the class.
    #[tactic(auto, using(crate::proofs::Joins::least_at, crate::proofs::Joins::least_within))]
    pub fn label(&self, e: u32) -> u32
        requires { e ≤ self.now.count }
        ensures label { result ≡ least_of self.now.pairs e }
        ensures least { IsLeastJoined self.now.pairs e result }
        ensures within { result ≤ e }
    {
        self.forest.label(self.last, e)
    }

    /// The elements that were merged with this one itself, in the order of the pairs; one as often as it was.
    #[tactic(auto, using(crate::proofs::Near::near_within))]
    pub fn neighbours(&self, e: u32) -> &[u32]
        ensures neighbours { result.now ≡ neighbours_of self.now.pairs e }
        ensures within { AllByRecursion (λ n. n ≤ self.now.count) result.now }
    {
        held_at(self.neighbours.as_slice(), e)
    }

    /// Steps that explain why two elements of one class are equal: one after another they apply on each path that says of the merged pairs that their two are equal, and the last of them concludes that the two elements are. They go along a shortest chain of merged pairs. The only error is want of memory. The time is linear in the number of elements and in the pairs of the class.
    pub fn explain(&self, alloc: Global, e: u32, f: u32) -> Result<PlainSteps, Memory>
        requires first { IsIn self.now.count e }
        requires second { IsIn self.now.count f }
        requires joined { least_of self.now.pairs e ≡ least_of self.now.pairs f }
        ensures { (problem : Parts) → length problem.elements ≡ self.now.count → IfOk result (λ steps. Explains problem self.now.pairs e f steps) }
    {
        let chain = chain_between(alloc, self, f, e)?;
        steps_along(alloc, chain.visits.as_slice(), chain.place)
    }
}
