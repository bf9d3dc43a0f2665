//! The bank: the formulas, set terms and elements of a script, each once.

ghost use Rattle.std.specs.Prelude.{◌≡◌, ◌<◌, ◌≤◌, [], length, Some, IfOk};
ghost use Rattle.sc_base.specs.Numbered.{item_at};
ghost use Rattle.sc_terms.specs.Bank.{takes, Puts, Begins, NodeStands, IsFormulaOf, IsSetOf, IsElementOf, IsBank};
ghost use Rattle.sc_terms.specs.declared.nodes.Node.TheVariants as nodes;

use crate::nodes::{Element, Formula, Node, SetTerm};
use indexmap::IndexSet;
use std::alloc::Global;
use std::marker::Model;
use thiserror::Error;

/// How many nodes a bank holds at most.
pub const LIMIT: usize = 200_000;

/// Why a node isn't put into the bank.
#[derive(Clone, Copy, Debug, PartialEq, Eq, Error)]
pub enum BankError {
    /// The node is new, and the bank holds as many as it may.
    #[error("too many terms")]
    Full,
    /// There was no memory.
    #[error("out of memory")]
    Memory,
}

/// Different nodes, each of which stands on nodes before it; seen as the list of them. A node's number is its place, counted from 1, and stays its own for good. Look-ups are hashed.
#[derive(Drop)]
pub struct Bank {
    nodes: IndexSet<Node>,
}

impl Model for Bank {
    ghost use Rattle.std.specs.Prelude.{List};
    ghost use Rattle.sc_terms.specs.declared.nodes.Node.{Node};
    ghost use Rattle.sc_terms.specs.Bank.{IsBank};

    ghost Value = { List Node };

    ghost view = { λ b. b.nodes.keys };

    ghost invariant = { λ b. IsBank b.nodes.keys };
}

impl Bank {
    /// The bank of no nodes.
    pub fn new(alloc: Global) -> Bank
        ensures { result ≡ [] }
    {
        Bank {
            nodes: IndexSet::new(alloc),
        }
    }

    /// How many nodes there are: the number of the last one.
    pub fn len(&self) -> usize
        ensures count { result ≡ length self.now }
        ensures bank { IsBank self.now }
    {
        self.nodes.len()
    }

    /// Whether the node stands in the bank, or has room there.
    fn takes(&self, node: &Node) -> bool
        ensures { result ≡ takes self.now node.now }
    {
        self.nodes.contains(node) || self.nodes.len() < LIMIT
    }

    /// The number of the equal node, or of a new one.
    #[tactic(auto, using(crate::proofs::Puts::bank_with, crate::proofs::Puts::number_stands, crate::proofs::Puts::begins_with))]
    fn put(&mut self, node: Node) -> Result<u32, BankError>
        requires { NodeStands self.old node }
        ensures exact { Puts self.old node result self.new }
        ensures number { IfOk result (λ n. item_at self.new n ≡ Some node) }
        ensures begins { Begins self.old self.new }
    {
        if !self.takes(&node) {
            return Err(BankError::Full);
        }
        match self.nodes.insert_full(node) {
            Ok((place, _)) => Ok(place as u32 + 1),
            Err(_) => Err(BankError::Memory),
        }
    }

    /// The number of the equal formula, or of a new one.
    ///
    /// The formula's parts are numbers of nodes of this bank, of the right kinds; a form names Int constants and cards alone, with coefficients below 2^126 in size. `Full` exactly where the formula is new and 200,000 nodes stand; the only other error is want of memory. After an error the bank is as it was.
    pub fn formula(&mut self, formula: Formula) -> Result<u32, BankError>
        requires { NodeStands self.old (nodes.Formula formula) }
        ensures exact { Puts self.old (nodes.Formula formula) result self.new }
        ensures number { IfOk result (λ n. item_at self.new n ≡ Some (nodes.Formula formula)) }
        ensures begins { Begins self.old self.new }
    {
        self.put(Node::Formula(formula))
    }

    /// The number of the equal set term, or of a new one.
    ///
    /// The term's parts are numbers of nodes of this bank, of the right kinds. `Full` exactly where the term is new and 200,000 nodes stand; the only other error is want of memory. After an error the bank is as it was.
    pub fn set(&mut self, set: SetTerm) -> Result<u32, BankError>
        requires { NodeStands self.old (nodes.Set set) }
        ensures exact { Puts self.old (nodes.Set set) result self.new }
        ensures number { IfOk result (λ n. item_at self.new n ≡ Some (nodes.Set set)) }
        ensures begins { Begins self.old self.new }
    {
        self.put(Node::Set(set))
    }

    /// The number of the equal element, or of a new one.
    ///
    /// An Int term's form names Int constants and cards of sets of this bank alone, with coefficients and a constant below 2^126 in size; a differing element has no place in a bank. `Full` exactly where the element is new and 200,000 nodes stand; the only other error is want of memory. After an error the bank is as it was.
    pub fn element(&mut self, element: Element) -> Result<u32, BankError>
        requires { NodeStands self.old (nodes.Element element) }
        ensures exact { Puts self.old (nodes.Element element) result self.new }
        ensures number { IfOk result (λ n. item_at self.new n ≡ Some (nodes.Element element)) }
        ensures begins { Begins self.old self.new }
    {
        self.put(Node::Element(element))
    }

    /// The node with this number.
    pub fn node_at(&self, number: u32) -> &Node
        requires first { 0 < number }
        requires last { number ≤ length self.now }
        ensures { item_at self.now number ≡ Some result.now }
    {
        let Some(node) = self.nodes.get_index(number as usize - 1) else {
            unreachable!()
        };
        node
    }

    /// The formula with this number.
    pub fn formula_at(&self, number: u32) -> &Formula
        requires { IsFormulaOf self.now number }
        ensures { item_at self.now number ≡ Some (nodes.Formula result.now) }
    {
        let Node::Formula(formula) = self.node_at(number) else {
            unreachable!()
        };
        formula
    }

    /// The set term with this number.
    pub fn set_at(&self, number: u32) -> &SetTerm
        requires { IsSetOf self.now number }
        ensures { item_at self.now number ≡ Some (nodes.Set result.now) }
    {
        let Node::Set(set) = self.node_at(number) else {
            unreachable!()
        };
        set
    }

    /// The element with this number.
    pub fn element_at(&self, number: u32) -> &Element
        requires { IsElementOf self.now number }
        ensures { item_at self.now number ≡ Some (nodes.Element result.now) }
    {
        let Node::Element(element) = self.node_at(number) else {
            unreachable!()
        };
        element
    }
}
