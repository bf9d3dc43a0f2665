//! Changes of one place.

ghost use Rattle.std.specs.Prelude.{◌≡◌, ◌≤◌, ◌+◌, ◌++◌, OnOk, OnErr, IfOk, length};
ghost use Rattle.std.specs.Vec.{vec_len, vec_capacity};
ghost use Rattle.sc_tree.specs.Keeping.{IsMarked, IsParted, HasMore};

use crate::machine::{Chain, Mark, Place};
use sc_deriv::Step;
use sc_terms::Memory;
use std::alloc::Global;
use std::mem;

/// The place with this number gets this mark.
pub(crate) fn set_mark(places: &mut Vec<Place>, number: u64, mark: Mark)
    requires first { 1 ≤ number }
    requires last { number ≤ length places.old.items }
    ensures marked { IsMarked places.old.items number mark places.new.items }
    ensures count { vec_len places.new ≡ vec_len places.old }
    ensures room { vec_capacity places.new ≡ vec_capacity places.old }
{
    let place = &mut places[number as usize - 1];
    place.mark = mark;
}

/// The place with this number is split by a step into two more places; answers the number of the first. Where memory is refused the places stay as they were.
pub(crate) fn part_place(
    alloc: Global,
    places: &mut Vec<Place>,
    number: u64,
    step: &Step,
) -> Result<u64, Memory>
    requires first { 1 ≤ number }
    requires last { number ≤ length places.old.items }
    ensures ok { IfOk result (λ next. (next ≡ length places.old.items + 1) × IsParted places.old.items number step.now places.new.items) }
    ensures err { OnErr result (places.new.items ≡ places.old.items) }
{
    let next = places.len() as u64 + 1;
    let mark = Mark::Parted(copy_step(step)?, next);
    places.reserve(2)?;
    set_mark(places, number, mark);
    places.push_reserved(Place::new(alloc, number, 1));
    places.push_reserved(Place::new(alloc, number, 2));
    Ok(next)
}

/// More steps at the end of a chain. Where memory is refused the chain stays as it was.
fn append(alloc: Global, chain: &mut Chain, mut steps: Vec<Step>) -> Result<(), Memory>
    ensures ok { OnOk result (chain.new ≡ chain.old ++ steps.items) }
    ensures err { OnErr result (chain.new ≡ chain.old) }
{
    let mut all = mem::replace(chain, Chain::new(alloc)).into_vec();
    let added = all.append(&mut steps);
    *chain = Chain::from_vec(all);
    Ok(added?)
}

/// The place with this number gets more steps. Where memory is refused the places stay as they were.
pub(crate) fn add_steps(
    alloc: Global,
    places: &mut Vec<Place>,
    number: u64,
    steps: Vec<Step>,
) -> Result<(), Memory>
    requires first { 1 ≤ number }
    requires last { number ≤ length places.old.items }
    ensures ok { OnOk result (HasMore places.old.items number steps.items places.new.items) }
    ensures err { OnErr result (places.new.items ≡ places.old.items) }
{
    let place = &mut places[number as usize - 1];
    append(alloc, &mut place.chain, steps)
}

/// Copies of the steps.
pub(crate) fn copy_steps(alloc: Global, steps: &[Step]) -> Result<Vec<Step>, Memory>
    ensures { IfOk result (λ v. v.items ≡ steps.now) }
{
    let mut copy = Vec::new(alloc);
    for step in steps {
        copy.push(copy_step(step)?)?;
    }
    Ok(copy)
}

/// A copy of the step.
pub(crate) fn copy_step(step: &Step) -> Result<Step, Memory>
    ensures { IfOk result (λ s. s ≡ step.now) }
{
    Ok(step.clone()?)
}
