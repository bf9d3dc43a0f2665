//! Tests of the stock, with ample memory.

ghost use Rattle.std.specs.Prelude.{◌≡◌, pos, negsuc, [], ◌∷◌, IfOk};
ghost use Rattle.sc_terms.specs.declared.atoms.Atom.TheVariants as atoms;
ghost use Rattle.sc_terms.specs.Bank.{IsFormulaOf, IsSetOf, Begins};

use super::*;
use sc_sorts::{may_hold, members_sort, sets_alike};
use sc_terms::{
    Affine, Atom, Bank, BankError, Element, Form, Formula, Memory, Problem, Row, SetTerm, Sort,
};
use std::alloc::Global;
use std::process::Abort;
use std::test::Fail;

/// The membership of an element constant in a set constant.
fn member(bank: &mut Bank) -> Result<u32, BankError>
    ensures { IfOk result (IsFormulaOf bank.new) }
{
    let element = bank.element(Element::Const(7, Sort::Named(1)))?;
    let set = bank.set(SetTerm::Const(8, Sort::SetNamed(1)))?;
    bank.formula(Formula::Member(element, set))
}

/// The union of two set constants is a third one.
fn equation(bank: &mut Bank) -> Result<u32, BankError>
    ensures { IfOk result (IsFormulaOf bank.new) }
{
    let first = bank.set(SetTerm::Const(1, Sort::SetInt))?;
    let second = bank.set(SetTerm::Const(2, Sort::SetInt))?;
    let union = bank.set(SetTerm::Union(first, second))?;
    let third = bank.set(SetTerm::Const(3, Sort::SetInt))?;
    bank.formula(Formula::EqSet(union, third))
}

/// A set constant is empty.
fn nothing_in(bank: &mut Bank, constant: u32) -> Result<u32, BankError>
    ensures formula { IfOk result (IsFormulaOf bank.new) }
    ensures begins { Begins bank.old bank.new }
{
    let empty = bank.set(SetTerm::Empty(Sort::SetInt))?;
    let set = bank.set(SetTerm::Const(constant, Sort::SetInt))?;
    bank.formula(Formula::EqSet(set, empty))
}

/// Two set constants are equal.
fn equal(bank: &mut Bank, first: u32, second: u32) -> Result<u32, BankError>
    ensures formula { IfOk result (IsFormulaOf bank.new) }
    ensures begins { Begins bank.old bank.new }
{
    let left = bank.set(SetTerm::Const(first, Sort::SetInt))?;
    let right = bank.set(SetTerm::Const(second, Sort::SetInt))?;
    bank.formula(Formula::EqSet(left, right))
}

/// Two set constants are both empty, or neither is.
fn empty_sets(bank: &mut Bank) -> Result<u32, BankError>
    ensures { IfOk result (IsFormulaOf bank.new) }
{
    let one = nothing_in(bank, 1)?;
    let other = nothing_in(bank, 2)?;
    bank.formula(Formula::Iff(one, other))
}

/// Three equations of three set constants, the last of which is the first one turned round.
fn turned(bank: &mut Bank) -> Result<u32, BankError>
    ensures { IfOk result (IsFormulaOf bank.new) }
{
    let two = equal(bank, 3, 1)?;
    let three = equal(bank, 2, 1)?;
    let both = bank.formula(Formula::Iff(two, three))?;
    let one = equal(bank, 1, 2)?;
    bank.formula(Formula::Iff(one, both))
}

/// The terms of an Int constant less the number of members of a set.
fn difference(alloc: Global, constant: u32, set: u32) -> Result<Form, Memory>
    ensures { IfOk result (λ form. form ≡ (pos 1, atoms.Int constant) ∷ (negsuc 0, atoms.Card set) ∷ []) }
{
    let mut terms = Vec::new(alloc);
    terms.push((1, Atom::Int(constant)))?;
    terms.push((-1, Atom::Card(set)))?;
    Ok(Form::from_terms(terms))
}

/// An Int constant is at most three more than the number of members of a set.
fn bound(alloc: Global, bank: &mut Bank) -> Result<u32, Fail>
    ensures formula { IfOk result (IsFormulaOf bank.new) }
    ensures begins { Begins bank.old bank.new }
{
    let set = bank.set(SetTerm::Const(1, Sort::SetInt))?;
    let form = difference(alloc, 6, set)?;
    Ok(bank.formula(Formula::Le(Row { form, bound: 3 }))?)
}

/// An Int constant less the number of members of a set is in this set.
fn held(alloc: Global, bank: &mut Bank) -> Result<u32, Fail>
    ensures formula { IfOk result (IsFormulaOf bank.new) }
    ensures begins { Begins bank.old bank.new }
{
    let set = bank.set(SetTerm::Const(1, Sort::SetInt))?;
    let form = difference(alloc, 5, set)?;
    let element = bank.element(Element::Number(Affine { form, constant: 4 }))?;
    Ok(bank.formula(Formula::Member(element, set))?)
}

/// A set constant without the members of the empty set.
fn left_over(bank: &mut Bank) -> Result<u32, BankError>
    ensures set { IfOk result (IsSetOf bank.new) }
    ensures begins { Begins bank.old bank.new }
{
    let empty = bank.set(SetTerm::Empty(Sort::SetNamed(1)))?;
    let set = bank.set(SetTerm::Const(3, Sort::SetNamed(1)))?;
    bank.set(SetTerm::Minus(set, empty))
}

/// An element is not in the union of the set of another one with what is left of a set.
fn nested(bank: &mut Bank) -> Result<u32, BankError>
    ensures { IfOk result (IsFormulaOf bank.new) }
{
    let inner = bank.element(Element::Const(4, Sort::Named(1)))?;
    let single = bank.set(SetTerm::Single(inner))?;
    let minus = left_over(bank)?;
    let union = bank.set(SetTerm::Union(single, minus))?;
    let outer = bank.element(Element::Const(5, Sort::Named(1)))?;
    let member = bank.formula(Formula::Member(outer, union))?;
    bank.formula(Formula::Not(member))
}

/// Each node has one number, a formula before its parts.
fn check_literals(rt: &impl Abort, problem: &Problem) -> bool {
    assert!(rt; problem.roots() == [1, 2, 1].as_slice());
    assert!(rt; problem.counts().formulas == 2);
    assert!(rt; problem.counts().sets == 1);
    assert!(rt; problem.counts().elements == 1);
    matches!(problem.find_formula(1), Some(Formula::Not(2)))
}

/// The sets of an equation make up a component, and differ in an element.
fn check_equation(rt: &impl Abort, problem: &Problem) -> bool {
    assert!(rt; problem.roots() == [1].as_slice());
    assert!(rt; problem.counts().components == 1);
    assert!(rt; problem.diff_of(4, 1) == Some(1));
    assert!(rt; members_sort(problem, 1) == Some(Sort::Int));
    assert!(rt; may_hold(problem, 1, 1) && sets_alike(problem, 1, 4));
    matches!(problem.find_set(1), Some(SetTerm::Union(2, 3)))
}

/// An empty set stands in no component and relates no sets, but differs from others in elements.
fn check_empty_sets(rt: &impl Abort, problem: &Problem) -> bool {
    assert!(rt; problem.counts().sets == 3 && problem.counts().components == 2);
    assert!(rt; problem.component(1) == [1].as_slice());
    assert!(rt; problem.component(2) == [3].as_slice());
    assert!(rt; problem.component_of(2).is_none());
    assert!(rt; matches!(problem.find_element(1), Some(Element::Diff(1, 2))));
    assert!(rt; matches!(problem.find_element(2), Some(Element::Diff(2, 3))));
    matches!(problem.find_formula(3), Some(Formula::EqSet(3, 2)))
}

/// Each pair of sides has one differing element, in the order of the equations.
fn check_pairs(rt: &impl Abort, problem: &Problem) -> bool {
    assert!(rt; problem.counts().formulas == 5 && problem.counts().elements == 2);
    assert!(rt; matches!(problem.find_formula(3), Some(Formula::Iff(4, 5))));
    assert!(rt; matches!(problem.find_formula(5), Some(Formula::EqSet(2, 1))));
    assert!(rt; matches!(problem.find_element(1), Some(Element::Diff(1, 2))));
    assert!(rt; problem.diff_of(2, 3).is_none());
    matches!(problem.find_element(2), Some(Element::Diff(1, 3)))
}

/// The first argument's parts have numbers before the second argument, and elements have numbers of their own.
fn check_nested(rt: &impl Abort, problem: &Problem) -> bool {
    assert!(rt; matches!(problem.find_formula(2), Some(Formula::Member(1, 1))));
    assert!(rt; matches!(problem.find_set(1), Some(SetTerm::Union(2, 3))));
    assert!(rt; matches!(problem.find_set(2), Some(SetTerm::Single(2))));
    assert!(rt; matches!(problem.find_set(3), Some(SetTerm::Minus(4, 5))));
    assert!(rt; matches!(problem.find_set(4), Some(SetTerm::Const(3, _))));
    assert!(rt; matches!(problem.find_element(1), Some(Element::Const(5, _))));
    matches!(problem.find_element(2), Some(Element::Const(4, _)))
}

/// Int constants and sets have numbers where a form names them.
fn check_forms(rt: &impl Abort, problem: &Problem) -> bool {
    assert!(rt; problem.ints() == [6, 5].as_slice());
    assert!(rt; problem.counts().sets == 1 && problem.counts().elements == 1);
    assert!(rt; problem.counts().components == 1 && problem.counted(1));
    assert!(rt; matches!(problem.find_formula(2), Some(Formula::Member(1, 1))));
    let Some(Formula::Le(row)) = problem.find_formula(1) else {
        return false;
    };
    row.form.terms() == [(1, Atom::Int(1)), (-1, Atom::Card(1))].as_slice()
}

#[test]
fn roots_are_in_order_with_repeats(rt: HostRuntime) -> Result<(), Fail> {
    let mut bank = Bank::new(rt.alloc());
    let member = member(&mut bank)?;
    let not = bank.formula(Formula::Not(member))?;
    let problem = prepare(rt.alloc(), &bank, &[not, member, not])?;
    assert!(rt; check_literals(&rt, &problem));
    Ok(())
}

#[test]
fn sets_of_an_equation_are_related(rt: HostRuntime) -> Result<(), Fail> {
    let mut bank = Bank::new(rt.alloc());
    let equation = equation(&mut bank)?;
    let problem = prepare(rt.alloc(), &bank, &[equation])?;
    assert!(rt; check_equation(&rt, &problem));
    Ok(())
}

#[test]
fn empty_sets_relate_nothing(rt: HostRuntime) -> Result<(), Fail> {
    let mut bank = Bank::new(rt.alloc());
    let formula = empty_sets(&mut bank)?;
    let problem = prepare(rt.alloc(), &bank, &[formula])?;
    assert!(rt; check_empty_sets(&rt, &problem));
    Ok(())
}

#[test]
fn pairs_have_elements_in_order(rt: HostRuntime) -> Result<(), Fail> {
    let mut bank = Bank::new(rt.alloc());
    let formula = turned(&mut bank)?;
    let problem = prepare(rt.alloc(), &bank, &[formula])?;
    assert!(rt; check_pairs(&rt, &problem));
    Ok(())
}

#[test]
fn parts_have_numbers_after_their_node(rt: HostRuntime) -> Result<(), Fail> {
    let mut bank = Bank::new(rt.alloc());
    let formula = nested(&mut bank)?;
    let problem = prepare(rt.alloc(), &bank, &[formula])?;
    assert!(rt; check_nested(&rt, &problem));
    Ok(())
}

#[test]
fn forms_name_constants_and_sets(rt: HostRuntime) -> Result<(), Fail> {
    let mut bank = Bank::new(rt.alloc());
    let bound = bound(rt.alloc(), &mut bank)?;
    let held = held(rt.alloc(), &mut bank)?;
    let problem = prepare(rt.alloc(), &bank, &[bound, held])?;
    assert!(rt; check_forms(&rt, &problem));
    Ok(())
}
