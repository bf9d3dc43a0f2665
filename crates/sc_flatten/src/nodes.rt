//! Nodes by their new numbers.

ghost use Rattle.std.specs.Prelude.{◌≡◌, ◌<◌, ◌^◌, Some, length, map, IfOk, OnOk};
ghost use Rattle.std.specs.List.{AllByRecursion};
ghost use Rattle.sc_base.specs.Numbered.{item_at};
ghost use Rattle.sc_terms.specs.Conditions.{IsIn};
ghost use Rattle.sc_flatten.specs.Stock.{number_in, formula_in, set_in, element_in, formula_by, set_by, element_by, formulas_by, sets_by, walked_by};
ghost use Rattle.sc_flatten.specs.Numbered.{IsAmong, FormulaListed, SetListed, ElementListed, FormulaListedAt, SetListedAt, ElementListedAt};
ghost use Rattle.sc_flatten.specs.Tables.{numbering, AreFew};

use crate::forms::{form_in, number_in};
use crate::tables::Tables;
use indexmap::IndexSet;
use sc_terms::{
    Affine, Bank, Element, Elements, Formula, Formulas, Memory, Node, Numbers, Row, SetTerm, Sets,
};
use std::alloc::Global;

/// The numbers of items that are among them.
pub(crate) fn numbers_in(
    alloc: Global,
    items: &IndexSet<u32>,
    named: &[u32],
) -> Result<Numbers, Memory>
    requires among { AllByRecursion (IsAmong items.now.keys) named.now }
    requires few { length items.now.keys < 2 ^ 32 }
    ensures { IfOk result (λ ns. ns ≡ map (number_in items.now.keys) named.now) }
{
    let mut numbers = Numbers::new(alloc);
    for item in named {
        numbers.push(number_in(items, *item))?;
    }
    Ok(numbers)
}

/// A formula of the bank by the new numbers of its parts.
fn formula_in(alloc: Global, tables: &Tables, formula: &Formula) -> Result<Formula, Memory>
    requires listed { FormulaListed (numbering tables.now) formula.now }
    requires few { AreFew tables.now }
    ensures { IfOk result (λ f. f ≡ formula_in (numbering tables.now) formula.now) }
{
    let (formulas, sets, elements) = (&tables.formulas, &tables.sets, &tables.elements);
    match formula {
        Formula::True => Ok(Formula::True),
        Formula::False => Ok(Formula::False),
        Formula::Flag(constant) => Ok(Formula::Flag(*constant)),
        Formula::Not(f) => Ok(Formula::Not(number_in(formulas, *f))),
        Formula::And(fs) => Ok(Formula::And(numbers_in(alloc, formulas, fs.as_slice())?)),
        Formula::Or(fs) => Ok(Formula::Or(numbers_in(alloc, formulas, fs.as_slice())?)),
        Formula::Iff(f, g) => Ok(Formula::Iff(number_in(formulas, *f), number_in(formulas, *g))),
        Formula::Eq(e, f) => Ok(Formula::Eq(number_in(elements, *e), number_in(elements, *f))),
        Formula::EqSet(s, t) => Ok(Formula::EqSet(number_in(sets, *s), number_in(sets, *t))),
        Formula::Member(e, s) => Ok(Formula::Member(number_in(elements, *e), number_in(sets, *s))),
        Formula::Le(row) => Ok(Formula::Le(Row {
            form: form_in(alloc, tables, &row.form)?,
            bound: row.bound,
        })),
    }
}

/// A set term of the bank by the new numbers of its arguments.
fn set_in(tables: &Tables, set: &SetTerm) -> SetTerm
    requires listed { SetListed (numbering tables.now) set.now }
    requires few { AreFew tables.now }
    ensures { result ≡ set_in (numbering tables.now) set.now }
{
    let sets = &tables.sets;
    match set {
        SetTerm::Const(constant, sort) => SetTerm::Const(*constant, *sort),
        SetTerm::Empty(sort) => SetTerm::Empty(*sort),
        SetTerm::Single(e) => SetTerm::Single(number_in(&tables.elements, *e)),
        SetTerm::Union(s, t) => SetTerm::Union(number_in(sets, *s), number_in(sets, *t)),
        SetTerm::Inter(s, t) => SetTerm::Inter(number_in(sets, *s), number_in(sets, *t)),
        SetTerm::Minus(s, t) => SetTerm::Minus(number_in(sets, *s), number_in(sets, *t)),
    }
}

/// An element of the bank by the new numbers of its atoms.
fn element_in(alloc: Global, tables: &Tables, element: &Element) -> Result<Element, Memory>
    requires listed { ElementListed (numbering tables.now) element.now }
    requires few { AreFew tables.now }
    ensures { IfOk result (λ e. e ≡ element_in (numbering tables.now) element.now) }
{
    match element {
        Element::Const(constant, sort) => Ok(Element::Const(*constant, *sort)),
        Element::Number(affine) => Ok(Element::Number(Affine {
            form: form_in(alloc, tables, &affine.form)?,
            constant: affine.constant,
        })),
        Element::Diff(_, _) => unreachable!(),
    }
}

fn formula_by(alloc: Global, tables: &Tables, node: &Node) -> Result<Formula, Memory>
    requires listed { FormulaListedAt (numbering tables.now) (Some node.now) }
    requires few { AreFew tables.now }
    ensures { IfOk result (λ f. f ≡ formula_by (numbering tables.now) (Some node.now)) }
{
    match node {
        Node::Formula(formula) => formula_in(alloc, tables, formula),
        _ => unreachable!(),
    }
}

fn set_by(tables: &Tables, node: &Node) -> SetTerm
    requires listed { SetListedAt (numbering tables.now) (Some node.now) }
    requires few { AreFew tables.now }
    ensures { result ≡ set_by (numbering tables.now) (Some node.now) }
{
    match node {
        Node::Set(set) => set_in(tables, set),
        _ => unreachable!(),
    }
}

fn element_by(alloc: Global, tables: &Tables, node: &Node) -> Result<Element, Memory>
    requires listed { ElementListedAt (numbering tables.now) (Some node.now) }
    requires few { AreFew tables.now }
    ensures { IfOk result (λ e. e ≡ element_by (numbering tables.now) (Some node.now)) }
{
    match node {
        Node::Element(element) => element_in(alloc, tables, element),
        _ => unreachable!(),
    }
}

/// The formulas in the order of their numbers.
pub(crate) fn formulas(alloc: Global, bank: &Bank, tables: &Tables) -> Result<Formulas, Memory>
    requires range { AllByRecursion (IsIn (length bank.now)) tables.now.formulas.keys }
    requires listed { AllByRecursion (λ n. FormulaListedAt (numbering tables.now) (item_at bank.now n)) tables.now.formulas.keys }
    requires few { AreFew tables.now }
    ensures { IfOk result (λ fs. fs ≡ formulas_by bank.now (numbering tables.now)) }
{
    let mut made = Formulas::new(alloc);
    for number in tables.formulas.as_slice() {
        made.push(formula_by(alloc, tables, bank.node_at(*number))?)?;
    }
    Ok(made)
}

/// The set terms in the order of their numbers.
pub(crate) fn sets(alloc: Global, bank: &Bank, tables: &Tables) -> Result<Sets, Memory>
    requires range { AllByRecursion (IsIn (length bank.now)) tables.now.sets.keys }
    requires listed { AllByRecursion (λ n. SetListedAt (numbering tables.now) (item_at bank.now n)) tables.now.sets.keys }
    requires few { AreFew tables.now }
    ensures { IfOk result (λ ss. ss ≡ sets_by bank.now (numbering tables.now)) }
{
    let mut made = Sets::new(alloc);
    for number in tables.sets.as_slice() {
        made.push(set_by(tables, bank.node_at(*number)))?;
    }
    Ok(made)
}

/// The elements that the walk met in the order of their numbers.
pub(crate) fn elements(alloc: Global, bank: &Bank, tables: &Tables) -> Result<Elements, Memory>
    requires range { AllByRecursion (IsIn (length bank.now)) tables.now.elements.keys }
    requires listed { AllByRecursion (λ n. ElementListedAt (numbering tables.now) (item_at bank.now n)) tables.now.elements.keys }
    requires few { AreFew tables.now }
    ensures { IfOk result (λ es. es ≡ walked_by bank.now (numbering tables.now)) }
{
    let mut made = Elements::new(alloc);
    for number in tables.elements.as_slice() {
        made.push(element_by(alloc, tables, bank.node_at(*number))?)?;
    }
    Ok(made)
}
