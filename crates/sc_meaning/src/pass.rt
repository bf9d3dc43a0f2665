//! One pass over the nodes of a bank, which finds the values of those that are marked.

ghost use Rattle.std.specs.Prelude.{◌<◌, ◌≤◌, length};
ghost use Rattle.sc_base.specs.Numbered.{item_at};
ghost use Rattle.sc_terms.specs.Values.{interpretation_of};
ghost use Rattle.sc_meaning.specs.Marks.{marked};
ghost use Rattle.sc_meaning.specs.Pass.{worth_if, FitsIf, worths_up, FitsUp};
ghost use Rattle.sc_meaning.specs.Results.{Evaluates};
ghost use Rattle.sc_meaning.specs.Worths.{found};

use crate::error::EvalError;
use crate::marks::is_marked;
use crate::node;
use crate::values::{Values, Worth};
use sc_terms::{Bank, Interp};
use std::alloc::Global;

/// The value of the node with this number, where it is marked, by the values of nodes before it.
#[tactic(auto, using(crate::proofs::Plain::is_plain))]
fn worth_at(
    alloc: Global,
    bank: &Bank,
    interp: &Interp,
    marks: &[bool],
    values: &Values,
    number: u32,
) -> Result<Worth, EvalError>
    requires first { 0 < number }
    requires last { number ≤ length bank.now }
    ensures { let i = interpretation_of interp.now in
        let v = found i values.now in
        let x = item_at bank.now number in
        Evaluates (FitsIf (marked marks.now number) v x) (worth_if (marked marks.now number) i v x) result }
{
    if !is_marked(marks, number) {
        return Ok(Worth::Unknown);
    }
    let _count = bank.len();
    node::worth(alloc, values, interp, bank.node_at(number))
}

/// The values of the marked nodes up to a number.
#[tactic(auto, using(crate::proofs::Passing::worths_next, crate::proofs::Passing::fits_next, crate::proofs::Passing::wide_there))]
pub fn values_up(
    alloc: Global,
    bank: &Bank,
    interp: &Interp,
    marks: &[bool],
    last: u32,
) -> Result<Values, EvalError>
    requires { last ≤ length bank.now }
    ensures { let i = interpretation_of interp.now in
        Evaluates (FitsUp i bank.now marks.now last) (worths_up i bank.now marks.now last) result }
{
    let mut values = Values::new(alloc);
    let mut number = 0;
    while number < last {
        number += 1;
        let worth = match worth_at(alloc, bank, interp, marks, &values, number) {
            Ok(worth) => worth,
            Err(error) => return Err(error),
        };
        if values.push(worth).is_err() {
            return Err(EvalError::Memory);
        }
    }
    Ok(values)
}
