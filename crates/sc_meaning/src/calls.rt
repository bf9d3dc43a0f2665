//! The calls of the crate.

ghost use Rattle.std.specs.Prelude.{◌≡◌, ◌<◌, ◌≤◌, ◌^◌, ◌+ℤ◌, ℕ, [], ◌∷◌, ◌++◌, length, IfOk, OnOk};
ghost use Rattle.std.specs.List.{AllByRecursion};
ghost use Rattle.sc_base.specs.Integers.{in_order};
ghost use Rattle.sc_terms.specs.Bank.{IsBank, IsFormulaOf, IsSetOf, AtomStands};
ghost use Rattle.sc_terms.specs.BankValues.{no_parts};
ghost use Rattle.sc_terms.specs.Conditions.{IsIn};
ghost use Rattle.sc_terms.specs.Meaning.{IsInterpretation, form_value};
ghost use Rattle.sc_terms.specs.Values.{interpretation_of, ElementFits};
ghost use Rattle.sc_terms.specs.declared.nodes.Element.TheVariants as elements;
ghost use Rattle.sc_base.specs.Numbered.{item_at};
ghost use Rattle.sc_meaning.specs.Answers.{values_by, failing_from, first_false};
ghost use Rattle.sc_meaning.specs.Results.{EvaluatesTo, Evaluates};
ghost use Rattle.sc_terms.specs.Under.{atom_parts, form_parts, FitUnder};
ghost use Rattle.sc_meaning.specs.Worths.{flag_in, found, Matches};

use crate::error::EvalError;
use crate::marks::reached;
use crate::node;
use crate::pass::values_up;
use crate::values::Values;
use sc_runs::Runs;
use sc_terms::{Affine, Atom, Bank, Interp, Memory};
use std::alloc::Global;

/// The larger of two numbers.
fn larger(a: u32, b: u32) -> u32
    ensures first { a ≤ result }
    ensures second { b ≤ result }
    ensures limit { (limit : ℕ) → a ≤ limit → b ≤ limit → result ≤ limit }
{
    if a < b { b } else { a }
}

/// The greatest of the numbers, which lie from 1 up to the limit, or 0 where there are none.
#[tactic(auto, using(crate::proofs::Tops::all_there))]
fn greatest(numbers: &[u32], limit: u32) -> u32
    requires { AllByRecursion (IsIn limit) numbers.now }
    ensures all { AllByRecursion (IsIn result) numbers.now }
    ensures limit { result ≤ limit }
{
    let mut greatest = 0;
    for number in numbers {
        greatest = larger(greatest, *number);
    }
    greatest
}

/// Adds the number that an atom names.
fn push_named(numbers: &mut Vec<u32>, atom: &Atom) -> Result<(), Memory>
    ensures { OnOk result (numbers.new.items ≡ numbers.old.items ++ atom_parts atom.now) }
{
    match atom {
        Atom::Card(number) | Atom::Diff(number) => {
            numbers.push(*number)?;
            Ok(())
        }
        _ => Ok(()),
    }
}

/// The numbers that the atoms of a form name.
#[tactic(auto, using(crate::proofs::Tops::named_next, crate::proofs::Tops::named_all))]
fn named(alloc: Global, terms: &[(i128, Atom)]) -> Result<Vec<u32>, Memory>
    ensures { IfOk result (λ numbers. numbers.items ≡ form_parts terms.now) }
{
    let mut numbers = Vec::new(alloc);
    for term in terms {
        if push_named(&mut numbers, &term.1).is_err() {
            return Err(Memory);
        }
    }
    Ok(numbers)
}

/// The place, from 1, of the first false formula.
fn false_place(values: &Values, formulas: &[u32]) -> Option<u32>
    requires { length formulas.now < 2 ^ 32 }
    ensures { result ≡ failing_from 1 (λ n. flag_in (item_at values.now n)) formulas.now }
{
    let mut place = 0;
    for formula in formulas {
        place += 1;
        if !values.flag(*formula) {
            return Some(place);
        }
    }
    None
}

/// The values of the nodes with these numbers.
fn evaluate(alloc: Global, bank: &Bank, interp: &Interp, tops: &[u32]) -> Result<Values, EvalError>
    requires { AllByRecursion (IsIn (length bank.now)) tops.now }
    ensures bank { IsBank bank.now }
    ensures interp { IsInterpretation (interpretation_of interp.now) }
    ensures values { let v = values_by bank.now interp.now in
        EvaluatesTo (FitUnder bank.now tops.now v) (λ values. AllByRecursion (Matches v (found (interpretation_of interp.now) values)) tops.now) result }
{
    interp.interprets();
    let last = greatest(tops, bank.len() as u32);
    let marks = reached(alloc, bank, tops, last)?;
    values_up(alloc, bank, interp, marks.as_slice(), last)
}

/// Whether the formula is true under the values of the constants.
///
/// `Wide` exactly where a number that counts leaves 128 bits, at a node that stands under the formula or is it: a product of a form or the size of a set in it, the left side of an inequality, or the value of an Int term. The only other error is want of memory. Each node under the formula is evaluated once.
pub fn eval_bool(
    alloc: Global,
    bank: &Bank,
    interp: &Interp,
    formula: u32,
) -> Result<bool, EvalError>
    requires { IsFormulaOf bank.now formula }
    ensures { let v = values_by bank.now interp.now in
        Evaluates (FitUnder bank.now (formula ∷ []) v) (v.truth formula) result }
{
    let values = evaluate(alloc, bank, interp, &[formula])?;
    Ok(values.flag(formula))
}

/// The value of an Int term under the values of the constants; each card in its form names a set term of the bank.
///
/// `Wide` exactly where a number that counts leaves 128 bits, in the term itself or at a node that stands under one of its cards' sets or is one. The only other error is want of memory.
pub fn eval_int(
    alloc: Global,
    bank: &Bank,
    interp: &Interp,
    value: &Affine,
) -> Result<i128, EvalError>
    requires { AllByRecursion (λ p. AtomStands bank.now p.1) value.now.form }
    ensures { let v = values_by bank.now interp.now in
        Evaluates (FitUnder bank.now (form_parts value.now.form) v × ElementFits no_parts v (elements.Number value.now)) (form_value no_parts v value.now.form +ℤ value.now.constant) result }
{
    let parts = named(alloc, value.form.terms())?;
    let values = evaluate(alloc, bank, interp, parts.as_slice())?;
    node::integer(&values, interp, value)
}

/// The members of a set term under the values of the constants, in ascending order.
///
/// `Wide` exactly where a number that counts leaves 128 bits at a node that stands under the set term. The only other error is want of memory.
pub fn eval_set(alloc: Global, bank: &Bank, interp: &Interp, set: u32) -> Result<Runs, EvalError>
    requires { IsSetOf bank.now set }
    ensures { let v = values_by bank.now interp.now in
        Evaluates (FitUnder bank.now (set ∷ []) v) (in_order (v.members set)) result }
{
    let values = evaluate(alloc, bank, interp, &[set])?;
    Ok(Runs::from_spans(alloc, values.set(set).spans())?)
}

/// The place, from 1, of the first of the formulas that is false under the values of the constants, or nothing exactly where all are true.
///
/// `Wide` exactly where a number that counts leaves 128 bits at a node that stands under one of the formulas, also behind a false one, or is one. The only other error is want of memory. Each node under the formulas is evaluated once.
#[tactic(auto, using(crate::proofs::Whole::formulas_in))]
pub fn all_true(
    alloc: Global,
    bank: &Bank,
    interp: &Interp,
    formulas: &[u32],
) -> Result<Option<u32>, EvalError>
    requires formulas { AllByRecursion (IsFormulaOf bank.now) formulas.now }
    requires few { length formulas.now < 2 ^ 32 }
    ensures { let v = values_by bank.now interp.now in
        Evaluates (FitUnder bank.now formulas.now v) (first_false v formulas.now) result }
{
    let values = evaluate(alloc, bank, interp, formulas)?;
    Ok(false_place(&values, formulas))
}
