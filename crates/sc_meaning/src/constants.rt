//! Values of constants by their kinds: false, 0 or the empty set where there is none of the kind.

ghost use Rattle.std.specs.Prelude.{◌≡◌, IfOk};
ghost use Rattle.sc_base.specs.Integers.{IsAscending};
ghost use Rattle.sc_terms.specs.Values.{interpretation_of};

use sc_runs::{Memory, Runs};
use sc_terms::{Interp, Value};
use std::alloc::Global;

/// The truth value of a constant.
pub fn flag(interp: &Interp, constant: u32) -> bool
    ensures { result ≡ (interpretation_of interp.now).flags constant }
{
    match interp.get(constant) {
        Some(Value::Flag(value)) => *value,
        _ => false,
    }
}

/// The integer of a constant.
pub fn number(interp: &Interp, constant: u32) -> i128
    ensures { result ≡ (interpretation_of interp.now).numbers constant }
{
    match interp.get(constant) {
        Some(Value::Number(value)) => *value,
        _ => 0,
    }
}

/// The set of a constant.
pub fn set(alloc: Global, interp: &Interp, constant: u32) -> Result<Runs, Memory>
    ensures { IfOk result (λ r. r ≡ (interpretation_of interp.now).sets constant) }
{
    match interp.get(constant) {
        Some(Value::Set(members)) => Runs::from_spans(alloc, members.spans()),
        _ => Ok(Runs::empty(alloc)),
    }
}
