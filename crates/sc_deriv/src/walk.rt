//! The open branches of a tree.

ghost use Rattle.std.specs.Prelude.{◌≡◌, ◌≢◌, ◌↔◌, ◌≤◌, [], ◌∷◌, ◌++◌, OnOk, IsTrue, length};
ghost use Rattle.sc_rules.specs.Steps.{lists_of};
ghost use Rattle.sc_deriv.specs.Judging.{grown};
ghost use Rattle.sc_deriv.specs.OpenPaths.{first_path, other_paths};

use crate::stack::Stack;
use sc_facts::{Facts, Path};
use sc_rules::Branches;
use sc_terms::Memory;
use std::alloc::Global;
use std::marker::Model;

/// Where a branch that waits goes on: at so many facts of the path, with its own after them.
#[derive(Drop)]
pub struct Turn {
    pub count: usize,
    pub facts: Facts,
}

/// The open branches of a tree that is read in preorder, seen as the list of their paths, the current one first.
#[derive(Drop)]
pub struct Walk {
    going: bool,
    path: Path,
    waiting: Stack<Turn>,
}

impl Model for Walk {
    ghost use Rattle.std.specs.Prelude.{List, length};
    ghost use Rattle.sc_facts.specs.declared.fact.Fact.{Fact};
    ghost use Rattle.sc_facts.specs.Paths.{root_count};
    ghost use Rattle.sc_deriv.specs.OpenPaths.{open_paths, IsNested};

    ghost Value = { List (List Fact) };

    ghost view = { λ w. open_paths w.going w.path.facts w.waiting };

    ghost invariant = { λ w. IsNested (root_count w.path) (length w.path.facts) w.waiting };
}

impl Walk {
    /// The one branch of a tree that begins on a path.
    pub fn new(alloc: Global, path: Path) -> Walk
        ensures { result ≡ path.facts ∷ [] }
    {
        Walk {
            going: true,
            path,
            waiting: Stack::new(alloc),
        }
    }

    /// Whether no branch is open.
    pub fn is_done(&self) -> bool
        ensures { IsTrue result ↔ (self.now ≡ []) }
    {
        !self.going
    }

    /// The path of the current branch.
    pub fn path(&self) -> &Path
        requires { self.now ≢ [] }
        ensures { result.now.facts ≡ first_path self.now }
    {
        &self.path
    }

    /// The current branch goes on with the branches of a step, the first of them first.
    pub fn branch(&mut self, branches: Branches) -> Result<(), Memory>
        requires { self.old ≢ [] }
        ensures { OnOk result (self.new ≡ grown (first_path self.old) (lists_of branches) ++ other_paths self.old) }
    {
        match branches {
            Branches::One(facts) => self.append(facts),
            Branches::Two(first, second) => {
                self.wait(second)?;
                self.append(first)
            }
        }
    }

    /// The current branch goes on with more facts.
    fn append(&mut self, facts: Facts) -> Result<(), Memory>
        requires { self.old ≢ [] }
        ensures { OnOk result (self.new ≡ (first_path self.old ++ facts) ∷ other_paths self.old) }
    {
        self.path.append(facts)
    }

    /// A branch that goes on from here with more facts is to be taken next after the current one.
    fn wait(&mut self, facts: Facts) -> Result<(), Memory>
        requires { self.old ≢ [] }
        ensures { OnOk result (self.new ≡ first_path self.old ∷ (first_path self.old ++ facts) ∷ other_paths self.old) }
    {
        let count = self.path.len();
        self.waiting.push(Turn { count, facts })
    }

    /// The current branch ends, and the one that waited last is taken up.
    pub fn close(&mut self) -> Result<(), Memory>
        requires { self.old ≢ [] }
        ensures { OnOk result (self.new ≡ other_paths self.old) }
    {
        match self.waiting.pop() {
            Some(turn) => {
                self.path.cut_back(turn.count);
                self.path.append(turn.facts)
            }
            None => {
                self.going = false;
                Ok(())
            }
        }
    }
}
