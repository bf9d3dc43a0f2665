//! Tests of evaluation, with ample memory.

ghost use Rattle.std.specs.Prelude.{◌≤ℤ◌, List, IfOk};
ghost use Rattle.std.specs.List.{AllByRecursion};
ghost use Rattle.sc_terms.specs.Bank.{AtomStands, IsFormulaOf, IsSetOf};
ghost use Rattle.sc_terms.specs.declared.nodes.Node.{Node};

use super::*;
use sc_runs::Span;
use sc_terms::{
    Affine, Atom, Bank, BankError, Form, Formula, Interp, Members, SetTerm, Sort, Value,
};
use std::alloc::Global;
use std::process::Abort;
use std::test::Fail;

/// So many formulas, each of which names the one before it twice.
fn doubled(bank: &mut Bank, count: u32) -> Result<u32, BankError>
    ensures { IfOk result (λ n. IsFormulaOf bank.new n) }
{
    let mut last = bank.formula(Formula::Flag(1))?;
    let mut made = 0;
    while made < count {
        made += 1;
        last = match bank.formula(Formula::Iff(last, last)) {
            Ok(number) => number,
            Err(error) => return Err(error),
        };
    }
    Ok(last)
}

#[test]
fn shared_nodes_are_evaluated_once(rt: HostRuntime) -> Result<(), Fail> {
    let mut bank = Bank::new(rt.alloc());
    let top = doubled(&mut bank, 100_000)?;
    let interp = Interp::new(rt.alloc());
    assert!(rt; matches!(eval_bool(rt.alloc(), &bank, &interp, top), Ok(true)));
    Ok(())
}

#[test]
fn first_false_formula_is_named(rt: HostRuntime) -> Result<(), Fail> {
    let mut bank = Bank::new(rt.alloc());
    let good = bank.formula(Formula::True)?;
    let flag = bank.formula(Formula::Flag(1))?;
    let bad = bank.formula(Formula::False)?;
    let interp = Interp::new(rt.alloc());
    let places = all_true(rt.alloc(), &bank, &interp, &[good, flag, bad]);
    assert!(rt; matches!(places, Ok(Some(2))));
    assert!(rt;
        matches!(
            all_true(rt.alloc(), &bank, &interp, &[good, good]),
            Ok(None)
        )
    );
    Ok(())
}

/// The Int constants 1 to 3 are 2^127 - 1 twice and -2^127.
fn extremes(alloc: Global) -> Result<Interp, Fail> {
    let mut interp = Interp::new(alloc);
    interp.put(1, Value::Number(i128::MAX))?;
    interp.put(2, Value::Number(i128::MAX))?;
    interp.put(3, Value::Number(i128::MIN))?;
    Ok(interp)
}

/// The sum of the Int constants 1 to 3 and of a number.
fn three(alloc: Global, constant: i128) -> Result<Affine, Fail>
    ensures { IfOk result (λ affine. (bank : List Node) → AllByRecursion (λ p. AtomStands bank p.1) affine.form) }
{
    let mut terms = Vec::new(alloc);
    terms.push((1, Atom::Int(1)))?;
    terms.push((1, Atom::Int(2)))?;
    terms.push((1, Atom::Int(3)))?;
    let form = Form::from_terms(terms);
    Ok(Affine { form, constant })
}

#[test]
fn partial_sums_may_pass_the_limits(rt: HostRuntime) -> Result<(), Fail> {
    let bank = Bank::new(rt.alloc());
    let interp = extremes(rt.alloc())?;
    let most = three(rt.alloc(), 1)?;
    assert!(rt; matches!(eval_int(rt.alloc(), &bank, &interp, &most), Ok(i128::MAX)));
    let more = three(rt.alloc(), 2)?;
    assert!(rt;
        matches!(
            eval_int(rt.alloc(), &bank, &interp, &more),
            Err(EvalError::Wide)
        )
    );
    Ok(())
}

/// The set of the numbers from one to another.
fn spanned(alloc: Global, low: i128, high: i128) -> Result<Value, Fail>
    requires { low ≤ℤ high }
{
    let mut spans = Vec::new(alloc);
    spans.push(Span { low, high })?;
    Ok(Value::Set(Members::from_spans(spans)))
}

/// The set constants 1 to 3 are all numbers of 128 bits, 1 to 3, and 3 and 4.
fn some_sets(alloc: Global) -> Result<Interp, Fail> {
    let mut interp = Interp::new(alloc);
    interp.put(1, spanned(alloc, i128::MIN, i128::MAX)?)?;
    interp.put(2, spanned(alloc, 1, 3)?)?;
    interp.put(3, spanned(alloc, 3, 4)?)?;
    Ok(interp)
}

/// How many members the set term has, or nothing where they are all numbers of 128 bits.
fn size(alloc: Global, bank: &Bank, interp: &Interp, set: u32) -> Result<Option<u128>, Fail>
    requires { IsSetOf bank.now set }
{
    let members = eval_set(alloc, bank, interp, set)?;
    Ok(members.card().ok())
}

#[test]
fn sets_are_counted(rt: HostRuntime) -> Result<(), Fail> {
    let interp = some_sets(rt.alloc())?;
    let mut bank = Bank::new(rt.alloc());
    let whole = bank.set(SetTerm::Const(1, Sort::SetInt))?;
    let left = bank.set(SetTerm::Const(2, Sort::SetInt))?;
    let right = bank.set(SetTerm::Const(3, Sort::SetInt))?;
    let both = bank.set(SetTerm::Union(left, right))?;
    assert!(rt; size(rt.alloc(), &bank, &interp, whole)?.is_none());
    assert!(rt; size(rt.alloc(), &bank, &interp, both)? == Some(4));
    Ok(())
}
