//! The judgement of programs.

ghost use Rattle.std.specs.Prelude.{◌≡◌, ◌≢◌, ◌++◌, ◌∷◌, [], ◌≤ℤ◌, pos, map, IfOk, IsOk, OnOk, Ok, MatchResult};
ghost use Rattle.sc_facts.specs.Facts.{rows_of};
ghost use Rattle.sc_linear.specs.Rows.{zero_row};
ghost use Rattle.sc_rows.specs.Programs.{sum_step, sum_from, quotient_of, item_row, is_absurd, by_last, ending, failing, judgement, IsExact, HasNoValues};
ghost use Rattle.sc_rows.specs.Given.{given_rows, done_row, IsDone};

use crate::given::{Done, Given, row_at};
use crate::laws::refuted_rows_have_no_values;
use crate::program::{Failure, Item, Judged, RowProgram};
use sc_facts::Path;
use sc_linear::{RowSum, TightenError, tighten};
use sc_terms::{Memory, Row};
use std::alloc::Global;

/// A sum with `factor` times the row that an earlier item gave.
fn sum_step(done: &[Done<'_>], total: RowSum, number: u64, factor: i128) -> Result<RowSum, Failure>
    ensures { IsExact result (sum_step (map done_row done.now) total (number, factor)) }
{
    if factor < 0 {
        return Err(Failure::Refused);
    }
    let row = row_at(done, number)?;
    Ok(total.plus(row, factor)?)
}

/// The sum of multiples of the rows that earlier items gave.
fn sum_of(alloc: Global, done: &[Done<'_>], terms: &[(u64, i128)]) -> Result<RowSum, Failure>
    ensures { IsExact result (sum_from (map done_row done.now) zero_row terms.now) }
{
    let mut total = RowSum::new(alloc);
    for term in terms {
        total = sum_step(done, total, term.0, term.1)?;
    }
    Ok(total)
}

/// The row divided, where the divisor divides each coefficient.
fn quotient_of(alloc: Global, row: &Row, divisor: i128) -> Result<Row, Failure>
    requires { pos 1 ≤ℤ divisor }
    ensures { IsExact result (quotient_of row.now divisor) }
{
    match tighten(alloc, row, divisor) {
        Ok(row) => Ok(row),
        Err(TightenError::NotDivisible) => Err(Failure::Refused),
        Err(TightenError::Memory) => Err(Failure::Memory),
    }
}

/// The row that an item gives after those that the earlier items gave.
fn item_row<'a>(
    alloc: Global,
    given: &Given<'a>,
    done: &[Done<'a>],
    item: &Item,
) -> Result<Done<'a>, Failure>
    ensures { IsDone result (item_row (given_rows given.now) (map done_row done.now) item.now) }
{
    match item {
        Item::Use(number) => match given.row(*number) {
            Some(row) => Ok(Done::Lent(row)),
            None => Err(Failure::Refused),
        },
        Item::Sum(terms) => {
            if terms.len() == 0 {
                return Err(Failure::Refused);
            }
            let total = sum_of(alloc, done, terms.as_slice())?;
            Ok(Done::Made(total.into_row()?))
        }
        Item::Div(number, divisor) => {
            if *divisor < 1 {
                return Err(Failure::Refused);
            }
            let row = quotient_of(alloc, row_at(done, *number)?, *divisor)?;
            Ok(Done::Made(row))
        }
    }
}

/// Whether the row is 0 <= -1.
fn is_absurd(row: &Row) -> bool
    ensures { result ≡ is_absurd row.now }
{
    row.form.terms().len() == 0 && row.bound == -1
}

/// The judgement where all items gave rows and this is the last.
fn by_last(count: u64, row: &Row) -> Judged
    ensures { result ≡ by_last count (Ok row.now) }
{
    if is_absurd(row) {
        Judged::Yes
    } else {
        Judged::No { item: count }
    }
}

/// The judgement where all items gave rows.
fn ending(done: &[Done<'_>]) -> Judged
    ensures { result ≡ ending (map done_row done.now) }
{
    let count = done.len() as u64;
    match row_at(done, count) {
        Ok(row) => by_last(count, row),
        Err(_) => Judged::No { item: count },
    }
}

/// The judgement where this item gives no row. The only error is want of memory.
fn judgement_of(item: u64, failure: Failure) -> Result<Judged, Memory>
    ensures value { MatchResult result (λ j. j ≡ failing item failure) (λ _. failure ≡ Failure.Memory) }
    ensures known { IsOk result → failure ≢ Failure.Memory }
    ensures no { result ≢ Ok Judged.Yes }
{
    match failure {
        Failure::Refused => Ok(Judged::No { item }),
        Failure::Wide { op, a, b } => Ok(Judged::Wide { item, op, a, b }),
        Failure::Memory => Err(Memory),
    }
}

/// Adds what an item gave.
fn push_done<'a>(done: &mut Vec<Done<'a>>, one: Done<'a>) -> Result<(), Memory>
    ensures { OnOk result (map done_row done.new.items ≡ map done_row done.old.items ++ done_row one.entry ∷ []) }
{
    done.push(one)?;
    Ok(())
}

/// The judgement of a program over these rows. The only error is want of memory.
fn judged(alloc: Global, given: &Given<'_>, program: &[Item]) -> Result<Judged, Memory>
    ensures { IfOk result (λ j. j ≡ judgement (given_rows given.now) program.now) }
{
    let mut done = Vec::new(alloc);
    for item in program {
        match item_row(alloc, given, done.as_slice(), item) {
            Ok(one) => push_done(&mut done, one)?,
            Err(failure) => return judgement_of(done.len() as u64 + 1, failure),
        }
    }
    Ok(ending(done.as_slice()))
}

/// Whether the program refutes the path's rows: where it answers `Yes`, no integers for the atoms make all of them hold. `Use` names them by their numbers, counted from 1 in path order. ///
/// Else, where some item gives no row, `Wide` or `No` names the first such; where all give rows, `No` names the last, or 0 where there is none. The items are judged in order, and a sum from left to right: a term that names no earlier item, or has a negative factor, is judged before those behind it are added. A row that an item uses is not copied. The only error is want of memory.
pub fn refutes(alloc: Global, path: &Path, program: &RowProgram) -> Result<Judged, Memory>
    ensures judged { IfOk result (λ j. j ≡ judgement (rows_of path.now.facts) program.now) }
    ensures sound { result ≡ Ok Judged.Yes → HasNoValues (rows_of path.now.facts) }
{
    refuted_rows_have_no_values();
    judged(alloc, &Given::Path(path), program.as_slice())
}

/// Whether the program refutes these rows, which `Use` names by their numbers, counted from 1; as `refutes` judges those of a path. The only error is want of memory.
pub fn refutes_rows(alloc: Global, rows: &[Row], program: &RowProgram) -> Result<Judged, Memory>
    ensures judged { IfOk result (λ j. j ≡ judgement rows.now program.now) }
    ensures sound { result ≡ Ok Judged.Yes → HasNoValues rows.now }
{
    refuted_rows_have_no_values();
    judged(alloc, &Given::Rows(rows), program.as_slice())
}
