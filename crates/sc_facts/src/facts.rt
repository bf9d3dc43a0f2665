//! Lists of facts.

ghost use Rattle.std.specs.Prelude.{◌≡◌, [], ◌∷◌, ◌++◌, length, IfOk, OnOk, OnErr};

use crate::fact::Fact;
use sc_terms::Memory;
use std::alloc::{AllocError, Global};
use std::marker::Model;

/// A list of facts, seen as the list.
#[derive(Drop)]
pub struct Facts {
    facts: Vec<Fact>,
}

impl Model for Facts {
    ghost use Rattle.std.specs.Prelude.{List};
    ghost use Rattle.sc_facts.specs.declared.fact.Fact.{Fact};

    ghost Value = { List Fact };

    ghost view = { λ f. f.facts.items };
}

impl Facts {
    /// No facts.
    pub fn new(alloc: Global) -> Facts
        ensures { result ≡ [] }
    {
        Facts {
            facts: Vec::new(alloc),
        }
    }

    /// One fact. The only error is want of memory.
    pub fn one(alloc: Global, fact: Fact) -> Result<Facts, Memory>
        ensures { IfOk result (λ facts. facts ≡ fact ∷ []) }
    {
        let mut facts = Facts::new(alloc);
        facts.push(fact)?;
        Ok(facts)
    }

    /// Adds a fact at the end. Where memory is refused the list stays as it was.
    pub fn push(&mut self, fact: Fact) -> Result<(), Memory>
        ensures ok { OnOk result (self.new ≡ self.old ++ fact ∷ []) }
        ensures err { OnErr result (self.new ≡ self.old) }
    {
        match self.facts.push(fact) {
            Ok(()) => Ok(()),
            Err(_) => Err(Memory),
        }
    }

    /// The list of a vector's facts; takes no memory.
    pub fn from_vec(facts: Vec<Fact>) -> Facts
        ensures { result ≡ facts.items }
    {
        Facts { facts }
    }

    /// The vector of the facts; takes no memory.
    pub fn into_vec(self) -> Vec<Fact>
        ensures { result.items ≡ self }
    {
        self.facts
    }

    /// The facts in order.
    pub fn as_slice(&self) -> &[Fact]
        ensures { result.now ≡ self.now }
    {
        self.facts.as_slice()
    }

    /// How many facts there are.
    pub fn len(&self) -> usize
        ensures { result ≡ length self.now }
    {
        self.facts.len()
    }
}

impl PartialEq for Facts {
    ghost use Rattle.std.specs.Cmp.{partial_equiv_from_equiv, decided};
    ghost use Rattle.sc_facts.specs.Same.{same_facts, same_facts-Decides};

    ghost eq = { same_facts };

    ghost laws = { partial_equiv_from_equiv (decided same_facts same_facts-Decides) };

    fn eq(&self, other: &Facts) -> bool {
        self.facts.as_slice() == other.facts.as_slice()
    }
}

impl Eq for Facts {
    ghost use Rattle.std.specs.Cmp.{decided};
    ghost use Rattle.sc_facts.specs.Same.{same_facts, same_facts-Decides};

    ghost laws = { decided same_facts same_facts-Decides };
}

/// A copy is equal.
impl Clone for Facts {
    ghost use Rattle.std.specs.Prelude.{◌≡◌};

    ghost is_clone = { λ a b. b ≡ a };

    fn clone(&self) -> Result<Facts, AllocError> {
        Ok(Facts {
            facts: self.facts.clone()?,
        })
    }
}
