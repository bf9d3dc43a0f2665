//! Values that are read off a path and tried.

ghost use Rattle.std.specs.Prelude.{◌≡◌, true, IfOk, IfSome};
ghost use Rattle.sc_sorts.specs.Posed.{IsOfBank, IsPosed};
ghost use Rattle.sc_terms.specs.BankValues.{bank_meaning};
ghost use Rattle.sc_terms.specs.Values.{interpretation_of, Shows};
ghost use Rattle.sc_branch.specs.Tried.{IsRight};

use crate::guess::{Stuck, guess};
use crate::said::Said;
use crate::seen::Seen;
use sc_facts::{Fact, Path};
use sc_meaning::{EvalError, all_true};
use sc_model::{model_of, read_off_values_show};
use sc_terms::{Bank, Interp, Memory, Problem};
use std::alloc::Global;

/// Whether the values make all assertions of the problem true, and each number that their evaluation meets fits 128 bits; false also where there are more assertions than the evaluation counts.
fn is_right(alloc: Global, problem: &Problem, bank: &Bank, values: &Interp) -> Result<bool, Memory>
    requires { IsOfBank problem.now bank.now }
    ensures { IfOk result (λ yes. yes ≡ true → IsRight bank.now problem.now.assertions (bank_meaning bank.now (interpretation_of values.now))) }
{
    let assertions = problem.assertions();
    if assertions.len() > u32::MAX as usize {
        return Ok(false);
    }
    match all_true(alloc, bank, values, assertions) {
        Ok(None) => Ok(true),
        Ok(Some(_)) => Ok(false),
        Err(EvalError::Wide) => Ok(false),
        Err(EvalError::Memory) => Err(Memory),
    }
}

/// The values that are read off the path, where they make the problem true: each class of elements that the path says to be equal has a number of its own, and a set has those of the elements that the path puts into it, and no others.
fn candidate(
    alloc: Global,
    problem: &Problem,
    bank: &Bank,
    path: &Path,
    said: &Said,
) -> Result<Option<Interp>, Memory>
    requires posed { IsPosed problem.now bank.now }
    ensures { IfOk result (λ values. IfSome values (Shows problem.now)) }
{
    read_off_values_show();
    let labels = said.labels(alloc, problem)?;
    let values = model_of(alloc, problem, path, labels.as_slice())?;
    values.interprets();
    if is_right(alloc, problem, bank, &values)? {
        return Ok(Some(values));
    }
    Ok(None)
}

/// A copy of the path with more memberships behind it.
fn with_members(path: &Path, members: &[(u32, u32)]) -> Result<Path, Memory> {
    let mut more = path.clone()?;
    for (element, set) in members {
        more.push(Fact::Member(*element, *set, true))?;
    }
    Ok(more)
}

/// The values that were tried, where they make the problem true, and the first element whose memberships could not be guessed.
#[derive(Drop)]
pub(crate) struct Tried {
    pub values: Option<Interp>,
    pub stuck: Option<Stuck>,
}

/// The values that are read off a path with memberships that are guessed beside it, where they make the problem true; none where the memberships of some element cannot be guessed.
pub(crate) fn values_of(alloc: Global, bank: &Bank, seen: Seen<'_>) -> Result<Tried, Memory>
    requires posed { IsPosed seen.problem.now bank.now }
    ensures { IfOk result (λ tried. IfSome tried.values (Shows seen.entry.problem.now)) }
{
    let guessed = guess(alloc, seen)?;
    if guessed.stuck.is_some() {
        return Ok(Tried {
            values: None,
            stuck: guessed.stuck,
        });
    }
    if guessed.members.is_empty() {
        let values = candidate(alloc, seen.problem, bank, seen.path, seen.said)?;
        return Ok(Tried {
            values,
            stuck: None,
        });
    }
    let more = with_members(seen.path, &guessed.members)?;
    let values = candidate(alloc, seen.problem, bank, &more, seen.said)?;
    Ok(Tried {
        values,
        stuck: None,
    })
}
