//! The search for a chain of merged pairs: breadth first, from the end of the chain.

ghost use Rattle.std.specs.Prelude.{◌≡◌, ◌<◌, ◌≤◌, ◌+◌, ℕ, false, length, slice_index_or, IfOk, OnOk};
ghost use Rattle.std.specs.List.{AllByRecursion};
ghost use Rattle.sc_classes.specs.Classes.{least_of};
ghost use Rattle.sc_classes.specs.Searches as spec;
ghost use Rattle.sc_classes.specs.Searches.{searching, IsChain, IsMarkedAt};

use crate::classes::Classes;
use sc_terms::Memory;
use std::alloc::Global;

/// A number that was met, and the place of the one from which it was met.
#[derive(Clone, Copy)]
pub(crate) struct Visit {
    pub number: u32,
    pub from: usize,
}

/// What was met on the way from the start, and the place of the goal there.
#[derive(Drop)]
pub(crate) struct Chain {
    pub visits: Vec<Visit>,
    pub place: usize,
}

/// The visit at a place.
pub(crate) fn visit_at(visits: &[Visit], place: usize) -> Visit
    requires { place < length visits.now }
    ensures { result ≡ spec.visit_at visits.now place }
{
    visits[place]
}

/// A mark for each number up to the last, none of them set.
fn unset(alloc: Global, last: u32) -> Result<Vec<bool>, Memory>
    ensures count { IfOk result (λ marks. length marks.items ≡ last + 1) }
    ensures none { IfOk result (λ marks. (n : ℕ) → slice_index_or marks.items n false ≡ false) }
{
    let mut marks = Vec::new(alloc);
    for _ in 0..=last {
        marks.push(false)?;
    }
    Ok(marks)
}

/// Marks for the numbers up to the last, of which one is set.
#[tactic(auto, using(crate::proofs::Searching::marked_one))]
fn marks(alloc: Global, last: u32, start: u32) -> Result<Vec<bool>, Memory>
    requires { start ≤ last }
    ensures { IfOk result (λ marks. IsMarkedAt last start marks.items) }
{
    let mut marks = unset(alloc, last)?;
    marks[start as usize] = true;
    Ok(marks)
}

/// Notes that a number was met from the number at a place, unless it was met before.
fn meet(
    visits: &mut Vec<Visit>,
    marks: &mut Vec<bool>,
    number: u32,
    from: usize,
) -> Result<(), Memory>
    requires { number < length marks.old.items }
    ensures { OnOk result (searching visits.new.items marks.new.items ≡ spec.meet from (searching visits.old.items marks.old.items) number) }
{
    if marks[number as usize] {
        return Ok(());
    }
    visits.push(Visit { number, from })?;
    marks[number as usize] = true;
    Ok(())
}

/// Notes that all these numbers were met from the number at a place.
fn meet_all(
    visits: &mut Vec<Visit>,
    marks: &mut Vec<bool>,
    numbers: &[u32],
    from: usize,
) -> Result<(), Memory>
    requires { AllByRecursion (λ n. n < length marks.old.items) numbers.now }
    ensures { OnOk result (searching visits.new.items marks.new.items ≡ spec.meet_all from (searching visits.old.items marks.old.items) numbers.now) }
{
    for number in numbers {
        meet(visits, marks, *number, from)?;
    }
    Ok(())
}

/// A chain of merged pairs between two elements of one class, from the goal back to the start. The only error is want of memory.
pub(crate) fn chain_between(
    alloc: Global,
    classes: &Classes,
    start: u32,
    goal: u32,
) -> Result<Chain, Memory>
    requires start { start ≤ classes.now.count }
    requires goal { goal ≤ classes.now.count }
    requires joined { least_of classes.now.pairs start ≡ least_of classes.now.pairs goal }
    ensures { IfOk result (λ chain. IsChain classes.now.pairs start goal chain.visits.items chain.place) }
{
    let mut marks = marks(alloc, classes.count(), start)?;
    let mut visits = Vec::new(alloc);
    visits.push(Visit {
        number: start,
        from: 0,
    })?;
    let mut place = 0;
    while place < visits.len() {
        let number = visit_at(visits.as_slice(), place).number;
        if number == goal {
            return Ok(Chain { visits, place });
        }
        meet_all(&mut visits, &mut marks, classes.neighbours(number), place)?;
        place += 1;
    }
    unreachable!()
}
