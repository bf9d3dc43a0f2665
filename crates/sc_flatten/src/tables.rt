//! Numbers of nodes by the order in which they are met.

ghost use Rattle.std.specs.Prelude.{◌≡◌, ◌<◌, ◌≤◌, ◌^◌, [], ◌∷◌, nat_eq, length, Some, IfOk, OnOk};
ghost use Rattle.std.specs.List.{AllByRecursion, IsDistinct};
ghost use Rattle.indexmap.specs.IndexSet.{insert_key, insert_all};
ghost use Rattle.sc_terms.specs.Conditions.{IsIn};
ghost use Rattle.sc_terms.specs.declared.nodes.Node.TheVariants as nodes;
ghost use Rattle.sc_flatten.specs.Walk.{form_constants, constants_at};
ghost use Rattle.sc_flatten.specs.Tables.{Enters, HasFewInts, IsNumbering};

use indexmap::IndexSet;
use sc_terms::{Atom, Bank, Element, Formula, Memory, Node};
use std::alloc::Global;

/// The bank's nodes of each kind, and the Int constants, that have numbers: the n-th of each has the number n.
#[derive(Drop)]
pub(crate) struct Tables {
    pub(crate) formulas: IndexSet<u32>,
    pub(crate) sets: IndexSet<u32>,
    pub(crate) elements: IndexSet<u32>,
    pub(crate) ints: IndexSet<u32>,
}

/// Enters an Int constant. Where 2^32 - 1 of them stand already, that is want of memory.
fn enter_constant(ints: &mut IndexSet<u32>, constant: u32) -> Result<(), Memory>
    ensures keys { OnOk result (ints.new.keys ≡ insert_key nat_eq ints.old.keys constant) }
    ensures few { OnOk result (length ints.new.keys < 2 ^ 32) }
{
    if ints.len() >= u32::MAX as usize {
        return Err(Memory);
    }
    ints.insert(constant)?;
    Ok(())
}

/// Enters the Int constants of a form.
fn enter_constants(ints: &mut IndexSet<u32>, terms: &[(i128, Atom)]) -> Result<(), Memory>
    requires { length ints.old.keys < 2 ^ 32 }
    ensures keys { OnOk result (ints.new.keys ≡ insert_all nat_eq ints.old.keys (form_constants terms.now)) }
    ensures few { OnOk result (length ints.new.keys < 2 ^ 32) }
{
    for term in terms {
        if let Atom::Int(constant) = &term.1 {
            enter_constant(ints, *constant)?;
        }
    }
    Ok(())
}

impl Tables {
    /// Enters a formula's number, and the Int constants of an inequality.
    fn enter_formula(&mut self, number: u32, formula: &Formula) -> Result<(), Memory>
        requires { HasFewInts self.old }
        ensures formulas { OnOk result (self.new.formulas.keys ≡ insert_key nat_eq self.old.formulas.keys number) }
        ensures ints { OnOk result (self.new.ints.keys ≡ insert_all nat_eq self.old.ints.keys (constants_at (Some (nodes.Formula formula.now)))) }
        ensures few { OnOk result (HasFewInts self.new) }
        ensures sets { self.new.sets ≡ self.old.sets }
        ensures elements { self.new.elements ≡ self.old.elements }
    {
        self.formulas.insert(number)?;
        if let Formula::Le(row) = formula {
            enter_constants(&mut self.ints, row.form.terms())?;
        }
        Ok(())
    }

    /// Enters an element's number, and the Int constants of an Int term.
    fn enter_element(&mut self, number: u32, element: &Element) -> Result<(), Memory>
        requires { HasFewInts self.old }
        ensures elements { OnOk result (self.new.elements.keys ≡ insert_key nat_eq self.old.elements.keys number) }
        ensures ints { OnOk result (self.new.ints.keys ≡ insert_all nat_eq self.old.ints.keys (constants_at (Some (nodes.Element element.now)))) }
        ensures few { OnOk result (HasFewInts self.new) }
        ensures formulas { self.new.formulas ≡ self.old.formulas }
        ensures sets { self.new.sets ≡ self.old.sets }
    {
        self.elements.insert(number)?;
        if let Element::Number(affine) = element {
            enter_constants(&mut self.ints, affine.form.terms())?;
        }
        Ok(())
    }

    /// Enters a node of the bank.
    fn enter(&mut self, bank: &Bank, number: u32) -> Result<(), Memory>
        requires range { IsIn (length bank.now) number }
        requires few { HasFewInts self.old }
        ensures enters { OnOk result (Enters bank.now (number ∷ []) self.old self.new) }
        ensures few { OnOk result (HasFewInts self.new) }
    {
        match bank.node_at(number) {
            Node::Formula(formula) => self.enter_formula(number, formula),
            Node::Set(_) => {
                self.sets.insert(number)?;
                Ok(())
            }
            Node::Element(element) => self.enter_element(number, element),
        }
    }

    /// Enters the nodes of the bank in this order.
    fn enter_all(&mut self, bank: &Bank, order: &[u32]) -> Result<(), Memory>
        requires range { AllByRecursion (IsIn (length bank.now)) order.now }
        requires few { HasFewInts self.old }
        ensures enters { OnOk result (Enters bank.now order.now self.old self.new) }
        ensures few { OnOk result (HasFewInts self.new) }
    {
        for number in order {
            self.enter(bank, *number)?;
        }
        Ok(())
    }

    /// The numbers of the nodes of the bank that stand in this order, each once, and of their Int constants.
    pub(crate) fn of(alloc: Global, bank: &Bank, order: &[u32]) -> Result<Tables, Memory>
        requires range { AllByRecursion (IsIn (length bank.now)) order.now }
        requires distinct { IsDistinct nat_eq order.now }
        ensures { IfOk result (IsNumbering bank.now order.now) }
    {
        let mut tables = Tables {
            formulas: IndexSet::new(alloc),
            sets: IndexSet::new(alloc),
            elements: IndexSet::new(alloc),
            ints: IndexSet::new(alloc),
        };
        tables.enter_all(bank, order)?;
        Ok(tables)
    }
}
