//! What a walk has still to visit.

ghost use Rattle.std.specs.Prelude.{◌≡◌, ℕ, [], ◌∷◌, ◌++◌, None, Some, OnOk, IfOk};
ghost use Rattle.sc_flatten.specs.Walk.{form_parts, formula_parts, set_parts, element_parts, node_parts};

use sc_terms::{Atom, Element, Formula, Memory, Node, SetTerm};
use std::alloc::Global;
use std::marker::Model;

/// Numbers of nodes that are still to be visited; seen as the list of them, the next one first.
#[derive(Drop)]
pub(crate) struct Pending {
    numbers: Vec<u32>,
}

impl Model for Pending {
    ghost use Rattle.std.specs.Prelude.{List, ℕ, reverse};

    ghost Value = { List ℕ };

    ghost view = { λ p. reverse p.numbers.items };
}

impl Pending {
    /// Nothing is to be visited.
    pub(crate) fn new(alloc: Global) -> Pending
        ensures { result ≡ [] }
    {
        Pending {
            numbers: Vec::new(alloc),
        }
    }

    /// The next number is no longer pending.
    pub(crate) fn pop(&mut self) -> Option<u32>
        ensures none { result ≡ None → self.old ≡ [] }
        ensures some { (n : ℕ) → result ≡ Some n → self.old ≡ n ∷ self.new }
    {
        self.numbers.pop()
    }

    fn push(&mut self, number: u32) -> Result<(), Memory>
        ensures { OnOk result (self.new ≡ number ∷ self.old) }
    {
        self.numbers.push(number)?;
        Ok(())
    }

    /// These come next, the first of them first.
    pub(crate) fn push_all(&mut self, numbers: &[u32]) -> Result<(), Memory>
        ensures { OnOk result (self.new ≡ numbers.now ++ self.old) }
    {
        for place in (0..numbers.len()).rev() {
            self.push(numbers[place])?;
        }
        Ok(())
    }

    /// The sets come next whose cards a form has.
    fn push_cards(&mut self, terms: &[(i128, Atom)]) -> Result<(), Memory>
        ensures { OnOk result (self.new ≡ form_parts terms.now ++ self.old) }
    {
        for place in (0..terms.len()).rev() {
            if let Atom::Card(set) = &terms[place].1 {
                self.push(*set)?;
            }
        }
        Ok(())
    }

    fn push_formula(&mut self, formula: &Formula) -> Result<(), Memory>
        ensures { OnOk result (self.new ≡ formula_parts formula.now ++ self.old) }
    {
        match formula {
            Formula::True | Formula::False | Formula::Flag(_) => Ok(()),
            Formula::Not(part) => self.push(*part),
            Formula::And(parts) | Formula::Or(parts) => self.push_all(parts.as_slice()),
            Formula::Iff(first, second)
            | Formula::Eq(first, second)
            | Formula::EqSet(first, second)
            | Formula::Member(first, second) => self.push_all(&[*first, *second]),
            Formula::Le(row) => self.push_cards(row.form.terms()),
        }
    }

    fn push_set(&mut self, set: &SetTerm) -> Result<(), Memory>
        ensures { OnOk result (self.new ≡ set_parts set.now ++ self.old) }
    {
        match set {
            SetTerm::Const(_, _) | SetTerm::Empty(_) => Ok(()),
            SetTerm::Single(element) => self.push(*element),
            SetTerm::Union(first, second)
            | SetTerm::Inter(first, second)
            | SetTerm::Minus(first, second) => self.push_all(&[*first, *second]),
        }
    }

    fn push_element(&mut self, element: &Element) -> Result<(), Memory>
        ensures { OnOk result (self.new ≡ element_parts element.now ++ self.old) }
    {
        match element {
            Element::Const(_, _) => Ok(()),
            Element::Number(affine) => self.push_cards(affine.form.terms()),
            Element::Diff(first, second) => self.push_all(&[*first, *second]),
        }
    }

    /// The parts of a node come next, from left to right.
    pub(crate) fn push_parts(&mut self, node: &Node) -> Result<(), Memory>
        ensures { OnOk result (self.new ≡ node_parts node.now ++ self.old) }
    {
        match node {
            Node::Formula(formula) => self.push_formula(formula),
            Node::Set(set) => self.push_set(set),
            Node::Element(element) => self.push_element(element),
        }
    }
}
