//! The steps of a leaf, and the path to which they lead.

ghost use Rattle.std.specs.Prelude.{◌≡◌, ℕ, [], ◌++◌, ◌<◌, ◌≤◌, ◌^◌, ◌↔◌, IsTrue, true, is_some, length, map, IfOk, OnOk, OnErr, reverse, List};
ghost use Rattle.std.specs.Option.{option_copied, option_to_list};
ghost use Rattle.sc_base.specs.Numbered.{item_at};
ghost use Rattle.sc_rules.specs.Steps.{lists_of};
ghost use Rattle.sc_deriv.specs.Taking.{concluded, path_after};
ghost use Rattle.sc_tree.specs.Chains.{taken, firsts};
ghost use Rattle.sc_tree.specs.Machine.{Cell};
ghost use Rattle.sc_tree.specs.Keeping.{place_of};
ghost use Rattle.sc_tree.specs.Descent.{AllCome};
ghost use Rattle.sc_tree.specs.Climbing.{turn_of, steps_or, own_count, step_count, AddsLast, GoesTo, IsClimbed, IsPathAfter, FollowsBranch};

use crate::machine::{Mark, Place};
use crate::places::copy_step;
use sc_deriv::{Step, Steps, Taken, step_branches};
use sc_facts::Path;
use sc_rules::{Branches, StepError};
use sc_terms::{Memory, Problem};
use std::alloc::Global;

/// The place with a number that counts from 1, or nothing where there is none.
pub(crate) fn find_place(places: &[Place], number: u64) -> Option<&Place>
    ensures { option_copied result ≡ item_at places.now number }
{
    if number == 0 {
        return None;
    }
    places.get(number as usize - 1)
}

/// The first branches of the steps.
fn firsts_of(alloc: Global, chain: &[Step]) -> Result<Vec<Taken>, Memory>
    ensures { IfOk result (λ v. v.items ≡ firsts chain.now) }
{
    let mut steps = Vec::new(alloc);
    for step in chain {
        steps.push(first_branch(step)?)?;
    }
    Ok(steps)
}

/// The first branch of the step.
fn first_branch(step: &Step) -> Result<Taken, Memory>
    ensures { IfOk result (λ t. t ≡ taken step.now 1) }
{
    Ok(Taken {
        step: copy_step(step)?,
        branch: 1,
    })
}

/// This branch of the step that split the place with a number, where one did.
fn turn(places: &[Place], number: u64, branch: u32) -> Result<Option<Taken>, Memory>
    ensures { IfOk result (λ o. option_to_list o ≡ turn_of (item_at places.now number) branch) }
{
    let Some(place) = find_place(places, number) else {
        return Ok(None);
    };
    let Mark::Parted(step, _) = &place.mark else {
        return Ok(None);
    };
    Ok(Some(Taken {
        step: copy_step(step)?,
        branch,
    }))
}

/// Adds a place's own steps and the one that led to it, the last first, and answers by whose split it came.
fn add_last(
    alloc: Global,
    places: &[Place],
    number: u64,
    steps: &mut Vec<Taken>,
) -> Result<u64, Memory>
    ensures { IfOk result (λ parent. AddsLast places.now number steps.old.items parent steps.new.items) }
{
    let Some(place) = find_place(places, number) else {
        return Ok(0);
    };
    let mut part = firsts_of(alloc, place.chain.as_slice())?;
    part.reverse();
    steps.append(&mut part)?;
    if let Some(taken) = turn(places, place.parent, place.branch)? {
        steps.push(taken)?;
    }
    Ok(place.parent)
}

/// The steps of a leaf, from the root path on, by the places of cells.
pub(crate) fn steps_to(alloc: Global, places: &[Place], leaf: u64) -> Result<Steps, Memory>
    requires { (cells : List Cell) × GoesTo places.now cells leaf }
    ensures { (cells : List Cell) → GoesTo places.now cells leaf → IfOk result (λ s. s ≡ steps_or (item_at cells leaf)) }
{
    let mut steps = Vec::new(alloc);
    let mut number = leaf;
    while number != 0 {
        match add_last(alloc, places, number, &mut steps) {
            Ok(parent) => number = parent,
            Err(e) => return Err(e),
        }
    }
    steps.reverse();
    Ok(Steps::from_vec(steps))
}

/// How many steps a place has: those of its own chain, and the one that led to it, if any.
fn count_own(place: &Place) -> u64
    requires { own_count place.now.parent place.now.chain < 2 ^ 64 }
    ensures { result ≡ own_count place.now.parent place.now.chain }
{
    let own = place.chain.len() as u64;
    if place.parent == 0 { own } else { own + 1 }
}

/// How many steps lead to a leaf from the root path, by the places of cells.
fn count_steps(places: &[Place], leaf: u64) -> u64
    requires { (cells : List Cell) × IsClimbed places.now cells × (step_count cells leaf < 2 ^ 64) }
    ensures { (cells : List Cell) → IsClimbed places.now cells → result ≡ step_count cells leaf }
{
    let mut count = 0;
    let mut number = leaf;
    while let Some(place) = find_place(places, number) {
        count += count_own(place);
        number = place.parent;
    }
    count
}

/// Whether as many steps lead to a leaf as the budget allows, by the places of cells.
pub(crate) fn is_full(places: &[Place], leaf: u64, budget: u64) -> bool
    requires { (cells : List Cell) × IsClimbed places.now cells × (step_count cells leaf ≤ budget) }
    ensures { (cells : List Cell) → IsClimbed places.now cells → IsTrue result ↔ (step_count cells leaf ≡ budget) }
{
    count_steps(places, leaf) == budget
}

/// The path goes on with the facts of one of the branches.
fn follow(path: &mut Path, branches: Branches, branch: u32) -> Result<(), Memory>
    requires { is_some (item_at (lists_of branches) branch) ≡ true }
    ensures { OnOk result (FollowsBranch path.old (item_at (lists_of branches) branch) path.new) }
{
    match branches {
        Branches::One(facts) => path.append(facts),
        Branches::Two(first, second) => {
            if branch == 1 {
                path.append(first)
            } else {
                path.append(second)
            }
        }
    }
}

/// The path goes on with a step, in the branch taken.
fn walk_on(alloc: Global, problem: &Problem, path: &mut Path, taken: &Taken) -> Result<(), Memory>
    requires { is_some (concluded problem.now path.old.facts taken.now) ≡ true }
    ensures { OnOk result (FollowsBranch path.old (concluded problem.now path.old.facts taken.now) path.new) }
{
    match step_branches(alloc, problem, path, &taken.step) {
        Ok(branches) => follow(path, branches, taken.branch),
        Err(StepError::NotApplicable) => unreachable!(),
        Err(StepError::Memory) => Err(Memory),
    }
}

/// The path to which the steps lead from the root path.
pub(crate) fn path_to(alloc: Global, problem: &Problem, steps: &[Taken]) -> Result<Path, Memory>
    requires { is_some (path_after problem.now steps.now) ≡ true }
    ensures { IfOk result (IsPathAfter problem.now steps.now) }
{
    let mut path = Path::root(alloc, problem)?;
    for taken in steps {
        match walk_on(alloc, problem, &mut path, taken) {
            Ok(()) => {}
            Err(e) => return Err(e),
        }
    }
    Ok(path)
}

/// The path of a leaf, and the steps that lead to it, by the places of cells.
pub(crate) fn lead_to(
    alloc: Global,
    places: &[Place],
    problem: &Problem,
    leaf: u64,
) -> Result<(Path, Steps), Memory>
    requires goes { (cells : List Cell) × GoesTo places.now cells leaf × is_some (path_after problem.now (steps_or (item_at cells leaf))) ≡ true }
    ensures { (cells : List Cell) → GoesTo places.now cells leaf → IfOk result (λ r. (r.1 ≡ steps_or (item_at cells leaf)) × IsPathAfter problem.now r.1 r.0) }
{
    let steps = steps_to(alloc, places, leaf)?;
    let path = path_to(alloc, problem, steps.as_slice())?;
    Ok((path, steps))
}
