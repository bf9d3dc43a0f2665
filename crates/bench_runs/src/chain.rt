//! A long chain of set terms, and its value.

ghost use Rattle.std.specs.Prelude.{IfOk};
ghost use Rattle.sc_terms.specs.Bank.{IsSetOf};

use crate::failure::Failure;
use sc_meaning::eval_set;
use sc_runs::Span;
use sc_terms::{Bank, BankError, Interp, Members, SetTerm, Sort, Value};
use std::alloc::Global;

/// The number of the one set constant.
const CONSTANT: u32 = 1;

/// The constant's greatest member; its least is 0.
const GREATEST: i128 = 1_000_000_000_000;

/// The last of so many terms behind a set constant, each the union of the one before it with itself.
fn doubled(bank: &mut Bank, count: u32) -> Result<u32, BankError>
    ensures { IfOk result (IsSetOf bank.new) }
{
    let mut last = bank.set(SetTerm::Const(CONSTANT, Sort::SetInt))?;
    for _ in 0..count {
        last = match bank.set(SetTerm::Union(last, last)) {
            Ok(number) => number,
            Err(error) => return Err(error),
        };
    }
    Ok(last)
}

/// The interpretation in which the constant is the set from 0 to 10^12.
fn interpretation(alloc: Global) -> Result<Interp, Failure> {
    let mut spans = Vec::new(alloc);
    spans.push(Span {
        low: 0,
        high: GREATEST,
    })?;
    let mut interp = Interp::new(alloc);
    interp.put(CONSTANT, Value::Set(Members::from_spans(spans)))?;
    Ok(interp)
}

/// The size of the value of the last of so many terms.
pub fn size(alloc: Global, count: u32) -> Result<u128, Failure> {
    let mut bank = Bank::new(alloc);
    let last = doubled(&mut bank, count)?;
    let interp = interpretation(alloc)?;
    let members = eval_set(alloc, &bank, &interp, last)?;
    Ok(members.card()?)
}
