//! The value of one node by those of its parts.

ghost use Rattle.std.specs.Prelude.{◌≡◌, ◌<◌, ◌≤◌, ◌+◌, ◌^◌, ℤ, pos, ◌+ℤ◌, List, length, drop, IfOk, FitsSigned, ◌*ℤ◌, int_lt, not, [], ◌∷◌, filter};
ghost use Rattle.std.specs.Int.{w128};
ghost use Rattle.std.specs.Option.{SomeIff};
ghost use Rattle.std.specs.List.{list_all, list_any, AllByRecursion};
ghost use Rattle.sc_base.specs.Integers.{in_order, has_element, without};
ghost use Rattle.sc_base.specs.Numbered.{item_at};
ghost use Rattle.sc_base.specs.Totals.{amount};
ghost use Rattle.sc_terms.specs.BankValues.{no_parts};
ghost use Rattle.sc_terms.specs.Meaning.{same_elements, atom_value, form_value, members_of, element_of, truth_of};
ghost use Rattle.sc_terms.specs.Values.{interpretation_of, TermFits, FormulaFits, ElementFits};
ghost use Rattle.sc_meaning.specs.Results.{Evaluates};
ghost use Rattle.sc_terms.specs.Under.{NodeFits};
ghost use Rattle.sc_meaning.specs.Worths.{flag_in, found, worth_by, IsPlain};
ghost use Rattle.sc_terms.specs.declared.nodes.Node.TheVariants as nodes;

use crate::constants;
use crate::error::EvalError;
use crate::values::{Values, Worth};
use sc_base::Total;
use sc_runs::{Memory, Runs};
use sc_terms::{Affine, Atom, Element, Formula, Interp, Node, Row, SetTerm};
use std::alloc::Global;

/// Whether two sets have the same members.
fn same_sets(a: &Runs, b: &Runs) -> bool
    ensures { result ≡ same_elements a.now b.now }
{
    let _first = a.spans();
    let _second = b.spans();
    a.same(b)
}

/// The number of members, or nothing exactly where it is 2^127 or more.
fn size(set: &Runs) -> Option<i128>
    ensures { SomeIff result (FitsSigned w128 (pos (length set.now))) (pos (length set.now)) }
{
    match set.card() {
        Ok(count) => i128::try_from(count).ok(),
        Err(_) => None,
    }
}

/// The value of an atom, or nothing exactly where it passes 128 bits.
fn atom(values: &Values, interp: &Interp, atom: &Atom) -> Option<i128>
    ensures { SomeIff result (FitsSigned w128 (atom_value no_parts (found (interpretation_of interp.now) values.now) atom.now)) (atom_value no_parts (found (interpretation_of interp.now) values.now) atom.now) }
{
    match atom {
        Atom::Int(constant) => Some(constants::number(interp, *constant)),
        Atom::Card(set) => size(values.set(*set)),
        Atom::Diff(element) => Some(values.number(*element)),
        Atom::Size(_) => Some(0),
    }
}

/// The product of a term, or nothing exactly where it or its atom's value passes 128 bits.
fn term(values: &Values, interp: &Interp, term: &(i128, Atom)) -> Option<i128>
    ensures { SomeIff result (TermFits no_parts (found (interpretation_of interp.now) values.now) term.now) (term.now.0 *ℤ atom_value no_parts (found (interpretation_of interp.now) values.now) term.now.1) }
{
    term.0.checked_mul(atom(values, interp, &term.1)?)
}

/// The sum, or `Wide` exactly where it passes 128 bits.
fn whole(total: Total) -> Result<i128, EvalError>
    ensures { Evaluates (FitsSigned w128 (amount total)) (amount total) result }
{
    match total.whole() {
        Some(sum) => Ok(sum),
        None => Err(EvalError::Wide),
    }
}

/// The sum of the products of the terms and of a constant.
fn sum(
    values: &Values,
    interp: &Interp,
    terms: &[(i128, Atom)],
    constant: i128,
) -> Result<i128, EvalError>
    ensures { let v = found (interpretation_of interp.now) values.now in
        let whole = form_value no_parts v terms.now +ℤ constant in
        Evaluates (AllByRecursion (TermFits no_parts v) terms.now × FitsSigned w128 whole) whole result }
{
    let mut total = Total::zero();
    for one in terms {
        let Some(product) = term(values, interp, one) else {
            return Err(EvalError::Wide);
        };
        total = total.plus(product);
    }
    whole(total.plus(constant))
}

/// Whether all of the formulas are true.
fn are_all(values: &Values, parts: &[u32]) -> bool
    ensures { result ≡ list_all (λ n. flag_in (item_at values.now n)) parts.now }
{
    parts.iter().all(|part| values.flag(*part))
}

/// Whether one of the formulas is true.
fn is_any(values: &Values, parts: &[u32]) -> bool
    ensures { result ≡ list_any (λ n. flag_in (item_at values.now n)) parts.now }
{
    parts.iter().any(|part| values.flag(*part))
}

/// Whether a formula is true.
fn truth(values: &Values, interp: &Interp, formula: &Formula) -> Result<bool, EvalError>
    ensures { let i = interpretation_of interp.now in
        let v = found i values.now in
        Evaluates (FormulaFits no_parts v formula.now) (truth_of no_parts i v formula.now) result }
{
    match formula {
        Formula::True => Ok(true),
        Formula::False => Ok(false),
        Formula::Flag(constant) => Ok(constants::flag(interp, *constant)),
        Formula::Not(part) => Ok(!values.flag(*part)),
        Formula::And(parts) => Ok(are_all(values, parts.as_slice())),
        Formula::Or(parts) => Ok(is_any(values, parts.as_slice())),
        Formula::Iff(a, b) => Ok(values.flag(*a) == values.flag(*b)),
        Formula::Eq(a, b) => Ok(values.number(*a) == values.number(*b)),
        Formula::EqSet(a, b) => Ok(same_sets(values.set(*a), values.set(*b))),
        Formula::Member(element, set) => Ok(values.set(*set).has(values.number(*element))),
        Formula::Le(row) => is_within(values, interp, row),
    }
}

/// Whether an inequality holds.
fn is_within(values: &Values, interp: &Interp, row: &Row) -> Result<bool, EvalError>
    ensures { let v = found (interpretation_of interp.now) values.now in
        Evaluates (AllByRecursion (TermFits no_parts v) row.now.form × FitsSigned w128 (form_value no_parts v row.now.form)) (not (int_lt row.now.bound (form_value no_parts v row.now.form))) result }
{
    let left = sum(values, interp, row.form.terms(), 0)?;
    Ok(left <= row.bound)
}

/// The members of a set term.
fn members(alloc: Global, values: &Values, interp: &Interp, set: &SetTerm) -> Result<Runs, Memory>
    ensures { let i = interpretation_of interp.now in
        IfOk result (λ r. r ≡ in_order (members_of i (found i values.now) set.now)) }
{
    match set {
        SetTerm::Const(constant, _) => constant_set(alloc, interp, *constant),
        SetTerm::Empty(_) => Ok(Runs::empty(alloc)),
        SetTerm::Single(element) => single(alloc, values.number(*element)),
        SetTerm::Union(a, b) => values.set(*a).union(values.set(*b)),
        SetTerm::Inter(a, b) => inter(values.set(*a), values.set(*b)),
        SetTerm::Minus(a, b) => minus(values.set(*a), values.set(*b)),
    }
}

/// The set of a constant.
#[tactic(auto, using(crate::proofs::Sets::in_order_is))]
fn constant_set(alloc: Global, interp: &Interp, constant: u32) -> Result<Runs, Memory>
    ensures { IfOk result (λ r. r ≡ in_order ((interpretation_of interp.now).sets constant)) }
{
    let set = constants::set(alloc, interp, constant)?;
    let _spans = set.spans();
    Ok(set)
}

/// The set of one number.
#[tactic(auto, using(crate::proofs::Sets::one_upward))]
fn single(alloc: Global, number: i128) -> Result<Runs, Memory>
    ensures { IfOk result (λ r. r ≡ number ∷ []) }
{
    Runs::span(alloc, number, number)
}

/// What is in both sets.
#[tactic(auto, using(crate::proofs::Sets::in_order_is))]
fn inter(a: &Runs, b: &Runs) -> Result<Runs, Memory>
    ensures { IfOk result (λ r. r ≡ in_order (filter (has_element b.now) a.now)) }
{
    let both = a.inter(b)?;
    let _spans = both.spans();
    Ok(both)
}

/// What is in the first set and not in the second.
#[tactic(auto, using(crate::proofs::Sets::in_order_is))]
fn minus(a: &Runs, b: &Runs) -> Result<Runs, Memory>
    ensures { IfOk result (λ r. r ≡ in_order (without a.now b.now)) }
{
    let rest = a.minus(b)?;
    let _spans = rest.spans();
    Ok(rest)
}

/// The value of an element.
fn element(values: &Values, interp: &Interp, element: &Element) -> Result<i128, EvalError>
    requires { IsPlain (nodes.Element element.now) }
    ensures { let i = interpretation_of interp.now in
        let v = found i values.now in
        Evaluates (ElementFits no_parts v element.now) (element_of no_parts i v element.now) result }
{
    match element {
        Element::Const(constant, _) => Ok(constants::number(interp, *constant)),
        Element::Number(affine) => integer(values, interp, affine),
        Element::Diff(_, _) => unreachable!(),
    }
}

/// The value of an Int term.
pub fn integer(values: &Values, interp: &Interp, affine: &Affine) -> Result<i128, EvalError>
    ensures { let v = found (interpretation_of interp.now) values.now in
        let whole = form_value no_parts v affine.now.form +ℤ affine.now.constant in
        Evaluates (AllByRecursion (TermFits no_parts v) affine.now.form × FitsSigned w128 whole) whole result }
{
    sum(values, interp, affine.form.terms(), affine.constant)
}

/// The value of a node by those of its parts.
pub fn worth(
    alloc: Global,
    values: &Values,
    interp: &Interp,
    node: &Node,
) -> Result<Worth, EvalError>
    requires { IsPlain node.now }
    ensures { let i = interpretation_of interp.now in
        let v = found i values.now in
        Evaluates (NodeFits v node.now) (worth_by i v node.now) result }
{
    match node {
        Node::Formula(formula) => Ok(Worth::Flag(truth(values, interp, formula)?)),
        Node::Set(set) => Ok(Worth::Set(members(alloc, values, interp, set)?)),
        Node::Element(one) => Ok(Worth::Number(element(values, interp, one)?)),
    }
}
