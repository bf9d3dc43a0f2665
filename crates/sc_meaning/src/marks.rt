//! Marks of the nodes that stand under others.

ghost use Rattle.std.specs.Prelude.{◌≡◌, ◌<◌, ◌≤◌, ◌+◌, true, false, [], ◌∷◌, length, IfOk, slice_set};
ghost use Rattle.std.specs.List.{AllByRecursion};
ghost use Rattle.sc_meaning.specs.Marks.{marked, unmarked, with_marks, swept_once, swept, reached};
ghost use Rattle.sc_terms.specs.Under.{atom_parts, form_parts, formula_parts, set_parts, element_parts, node_parts};

use sc_terms::{Atom, Bank, Element, Formula, Memory, Node, SetTerm};
use std::alloc::Global;

/// So many places without a mark.
#[tactic(auto, using(crate::proofs::Marking::unmarked_more))]
fn unmarked(alloc: Global, count: usize) -> Result<Vec<bool>, Memory>
    ensures { IfOk result (λ marks. marks.items ≡ unmarked count) }
{
    let mut marks = Vec::new(alloc);
    for _ in 0..count {
        marks.push(false)?;
    }
    Ok(marks)
}

/// Whether a number is marked; past the end none is.
pub fn is_marked(marks: &[bool], number: u32) -> bool
    ensures { result ≡ marked marks.now number }
{
    match marks.get(number as usize) {
        Some(mark) => *mark,
        None => false,
    }
}

/// Marks a number; past the end nothing changes.
fn mark(marks: &mut Vec<bool>, number: u32)
    ensures { marks.new.items ≡ slice_set marks.old.items number true }
{
    let place = number as usize;
    if place < marks.len() {
        marks[place] = true;
    }
}

/// Marks the numbers.
fn mark_all(marks: &mut Vec<bool>, numbers: &[u32])
    ensures { marks.new.items ≡ with_marks numbers.now marks.old.items }
{
    for number in numbers {
        mark(marks, *number);
    }
}

/// Marks what an atom names.
fn mark_atom(marks: &mut Vec<bool>, atom: &Atom)
    ensures { marks.new.items ≡ with_marks (atom_parts atom.now) marks.old.items }
{
    match atom {
        Atom::Card(number) | Atom::Diff(number) => mark(marks, *number),
        _ => {}
    }
}

/// Marks what the atoms of a form name.
#[tactic(auto, using(crate::proofs::Marking::form_marked))]
pub fn mark_form(marks: &mut Vec<bool>, terms: &[(i128, Atom)])
    ensures { marks.new.items ≡ with_marks (form_parts terms.now) marks.old.items }
{
    for term in terms {
        mark_atom(marks, &term.1);
    }
}

/// Marks two numbers.
fn mark_two(marks: &mut Vec<bool>, first: u32, second: u32)
    ensures { marks.new.items ≡ with_marks (first ∷ second ∷ []) marks.old.items }
{
    mark(marks, first);
    mark(marks, second);
}

/// Marks the parts of a formula.
fn mark_formula(marks: &mut Vec<bool>, formula: &Formula)
    ensures { marks.new.items ≡ with_marks (formula_parts formula.now) marks.old.items }
{
    match formula {
        Formula::True | Formula::False | Formula::Flag(_) => {}
        Formula::Not(part) => mark(marks, *part),
        Formula::And(parts) | Formula::Or(parts) => mark_all(marks, parts.as_slice()),
        Formula::Iff(a, b) | Formula::Eq(a, b) | Formula::EqSet(a, b) | Formula::Member(a, b) =>
            mark_two(marks, *a, *b),
        Formula::Le(row) => mark_form(marks, row.form.terms()),
    }
}

/// Marks the parts of a set term.
fn mark_set(marks: &mut Vec<bool>, set: &SetTerm)
    ensures { marks.new.items ≡ with_marks (set_parts set.now) marks.old.items }
{
    match set {
        SetTerm::Const(_, _) | SetTerm::Empty(_) => {}
        SetTerm::Single(element) => mark(marks, *element),
        SetTerm::Union(a, b) | SetTerm::Inter(a, b) | SetTerm::Minus(a, b) => {
            mark_two(marks, *a, *b)
        }
    }
}

/// Marks the parts of an element.
fn mark_element(marks: &mut Vec<bool>, element: &Element)
    ensures { marks.new.items ≡ with_marks (element_parts element.now) marks.old.items }
{
    match element {
        Element::Const(_, _) => {}
        Element::Number(affine) => mark_form(marks, affine.form.terms()),
        Element::Diff(a, b) => mark_two(marks, *a, *b),
    }
}

/// Marks the parts of a node.
fn mark_parts(marks: &mut Vec<bool>, node: &Node)
    ensures { marks.new.items ≡ with_marks (node_parts node.now) marks.old.items }
{
    match node {
        Node::Formula(formula) => mark_formula(marks, formula),
        Node::Set(set) => mark_set(marks, set),
        Node::Element(element) => mark_element(marks, element),
    }
}

/// Marks the parts of the node with this number, where it is marked.
fn mark_below(marks: &mut Vec<bool>, bank: &Bank, number: u32)
    requires first { 0 < number }
    requires last { number ≤ length bank.now }
    ensures { marks.new.items ≡ swept_once bank.now number marks.old.items }
{
    if is_marked(marks.as_slice(), number) {
        mark_parts(marks, bank.node_at(number));
    }
}

/// Marks all that stands under what is marked, from the number down.
#[tactic(auto, using(crate::proofs::Marking::swept_more))]
fn sweep(marks: &mut Vec<bool>, bank: &Bank, last: u32)
    requires { last ≤ length bank.now }
    ensures { marks.new.items ≡ swept bank.now last marks.old.items }
{
    let mut number = last;
    while number > 0 {
        mark_below(marks, bank, number);
        number -= 1;
    }
}

/// Marks of the nodes up to the number that stand under those of the list.
pub fn reached(alloc: Global, bank: &Bank, tops: &[u32], last: u32) -> Result<Vec<bool>, Memory>
    requires { last ≤ length bank.now }
    ensures { IfOk result (λ marks. marks.items ≡ reached bank.now tops.now last) }
{
    let mut marks = unmarked(alloc, last as usize + 1)?;
    mark_all(&mut marks, tops);
    sweep(&mut marks, bank, last);
    Ok(marks)
}
