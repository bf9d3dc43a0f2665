//! Which set terms a set term or an element leads to.

ghost use Rattle.std.specs.Prelude.{◌≡◌, ℕ, true, Some, IfOk, OnOk};
ghost use Rattle.sc_facts.specs.Facts.{has};
ghost use Rattle.sc_facts.specs.Same.{same_fact};
ghost use Rattle.sc_rules.specs.Pairs.{same_set_fact};
ghost use Rattle.sc_member.specs.Notes.{is_noted, Keeps, IsNotedAt, AreNoted};

use crate::notes::Notes;
use sc_facts::Fact;
use sc_terms::{Memory, Problem, SetTerm};
use std::alloc::Global;

/// By the number of a set term: the set terms of which it is an argument, and those that are said to equal it; by the number of an element: the sets of this one element.
#[derive(Drop)]
pub(crate) struct Index {
    pub parents: Notes,
    pub singles: Notes,
    pub partners: Notes,
}

/// Notes the arguments of a set term.
fn note_set(index: &mut Index, number: u32, node: &SetTerm) -> Result<(), Memory>
    ensures parents { Keeps index.old.parents index.new.parents }
    ensures singles { Keeps index.old.singles index.new.singles }
    ensures noted { OnOk result (IsNotedAt number (Some node.now) index.new.parents index.new.singles) }
{
    match node {
        SetTerm::Single(e) => index.singles.note(*e, number),
        SetTerm::Union(a, b) => index.parents.note_both(*a, *b, number),
        SetTerm::Inter(a, b) => index.parents.note_both(*a, *b, number),
        SetTerm::Minus(a, b) => index.parents.note_both(*a, *b, number),
        _ => Ok(()),
    }
}

/// The index of a problem, in which no set terms are equal yet.
pub(crate) fn index_of(alloc: Global, problem: &Problem) -> Result<Index, Memory>
    ensures { IfOk result (λ index. AreNoted problem.now index.parents index.singles) }
{
    let counts = problem.counts();
    let mut index = Index {
        parents: Notes::new(alloc, counts.sets)?,
        singles: Notes::new(alloc, counts.elements)?,
        partners: Notes::new(alloc, counts.sets)?,
    };
    for place in 0..counts.sets {
        note_set(&mut index, place + 1, problem.set(place + 1))?;
    }
    Ok(index)
}

/// Notes two set terms beside each other, where the fact is that they are equal. The only error is want of memory, and what was noted still is.
pub(crate) fn note_fact(partners: &mut Notes, fact: &Fact) -> Result<(), Memory>
    ensures kept { Keeps partners.old partners.new }
    ensures noted { OnOk result ((s t : ℕ) → same_fact (same_set_fact s t true) fact.now ≡ true → is_noted partners.new s t ≡ true) }
{
    match fact {
        Fact::EqSet(s, t, true) => {
            partners.note(*s, *t)?;
            partners.note(*t, *s)
        }
        _ => Ok(()),
    }
}
