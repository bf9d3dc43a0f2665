//! The steps on memberships in which a fact or a set term may take part.

ghost use Rattle.std.specs.Prelude.{◌≡◌, ◌++◌, length, Some, IfOk, OnOk};
ghost use Rattle.sc_terms.specs.Lookup.{set_at};
ghost use Rattle.sc_member.specs.Candidates as spec;
ghost use Rattle.sc_member.specs.Candidates.{operation_steps, operations_steps, carry_steps, move_steps, single_steps, outside_steps};

use crate::index::Index;
use sc_classes::Classes;
use sc_facts::Fact;
use sc_rules::PlainStep;
use sc_terms::{Memory, Problem, SetTerm};
use std::alloc::Global;

/// Adds the steps by an operation, at its three places.
fn add_operation(steps: &mut Vec<PlainStep>, e: u32, n: u32) -> Result<(), Memory>
    ensures { OnOk result (steps.new.items ≡ steps.old.items ++ operation_steps e n) }
{
    steps.push(PlainStep::Op(e, n, 0))?;
    steps.push(PlainStep::Op(e, n, 1))?;
    steps.push(PlainStep::Op(e, n, 2))?;
    Ok(())
}

/// Adds the steps by operations.
fn add_operations(steps: &mut Vec<PlainStep>, e: u32, numbers: &[u32]) -> Result<(), Memory>
    ensures { OnOk result (steps.new.items ≡ steps.old.items ++ operations_steps e numbers.now) }
{
    for n in numbers {
        add_operation(steps, e, *n)?;
    }
    Ok(())
}

/// Adds the steps from an element to others.
fn add_carries(steps: &mut Vec<PlainStep>, e: u32, s: u32, others: &[u32]) -> Result<(), Memory>
    ensures { OnOk result (steps.new.items ≡ steps.old.items ++ carry_steps e s others.now) }
{
    for f in others {
        steps.push(PlainStep::Carry(e, *f, s))?;
    }
    Ok(())
}

/// Adds the steps from a set term to others.
fn add_moves(steps: &mut Vec<PlainStep>, e: u32, s: u32, others: &[u32]) -> Result<(), Memory>
    ensures { OnOk result (steps.new.items ≡ steps.old.items ++ move_steps e s others.now) }
{
    for t in others {
        steps.push(PlainStep::Move(e, s, *t))?;
    }
    Ok(())
}

/// Adds the steps of an element into sets of one element.
fn add_singles(steps: &mut Vec<PlainStep>, e: u32, sets: &[u32]) -> Result<(), Memory>
    ensures { OnOk result (steps.new.items ≡ steps.old.items ++ single_steps e sets.now) }
{
    for s in sets {
        steps.push(PlainStep::Single(e, *s))?;
    }
    Ok(())
}

/// The steps in which a fact may take part: those of a membership by the operations on its set term, to the elements and to the set terms that are said to equal its own, and those that an equation has into sets of one element.
pub(crate) fn steps_of_fact(
    alloc: Global,
    index: &Index,
    classes: &Classes,
    fact: &Fact,
) -> Result<Vec<PlainStep>, Memory>
    ensures { IfOk result (λ steps. steps.items ≡ spec.fact_steps (record { parents = index.now.parents; singles = index.now.singles; partners = index.now.partners; pairs = classes.now.pairs }) fact.now) }
{
    let mut steps = Vec::new(alloc);
    match fact {
        Fact::Member(e, s, _) => {
            add_operation(&mut steps, *e, *s)?;
            add_operations(&mut steps, *e, index.parents.noted(*s))?;
            add_carries(&mut steps, *e, *s, classes.neighbours(*e))?;
            add_moves(&mut steps, *e, *s, index.partners.noted(*s))?;
        }
        Fact::Eq(e, f, _) => {
            add_singles(&mut steps, *e, index.singles.noted(*f))?;
            add_singles(&mut steps, *f, index.singles.noted(*e))?;
        }
        _ => {}
    }
    Ok(steps)
}

/// The steps that keep the elements out of a set term, the first ones, so many.
#[tactic(auto, unfolding(crate::specs::Candidates::outside_steps))]
fn steps_outside(alloc: Global, n: u32, count: u32) -> Result<Vec<PlainStep>, Memory>
    ensures { IfOk result (λ steps. steps.items ≡ outside_steps n count) }
{
    let mut steps = Vec::new(alloc);
    for place in 0..count {
        steps.push(PlainStep::Op(place + 1, n, 0))?;
    }
    Ok(steps)
}

/// The steps of a set term that need no fact: those that keep each element out of it, where it is an empty set.
pub(crate) fn steps_of_set(
    alloc: Global,
    problem: &Problem,
    n: u32,
) -> Result<Vec<PlainStep>, Memory>
    ensures { IfOk result (λ steps. steps.items ≡ spec.set_steps problem.now n (set_at problem.now n)) }
{
    match problem.find_set(n) {
        Some(SetTerm::Empty(_)) => steps_outside(alloc, n, problem.counts().elements),
        _ => Ok(Vec::new(alloc)),
    }
}
