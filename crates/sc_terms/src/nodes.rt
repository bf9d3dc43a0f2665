//! The nodes of banks and problems: sorts, formulas, set terms and elements, which name their parts by numbers that count from 1.

ghost use Rattle.std.specs.Prelude.{◌≡◌};
ghost use Rattle.sc_terms.specs.Inputs.{formula_kind};

use crate::form::{Affine, Row};
use sc_base::Sequence;
use std::alloc::AllocError;
use std::hash::{Hash, Hasher};

/// Numbers of nodes.
pub type Numbers = Sequence<u32>;

/// The sorts of the language. A declared sort is named by its number.
#[derive(Clone, Copy, Debug)]
pub enum Sort {
    /// Truth values.
    Bool,
    /// Integers.
    Int,
    /// A declared sort, by its number.
    Named(u32),
    /// Finite sets of integers.
    SetInt,
    /// Finite sets of a declared sort, by its number.
    SetNamed(u32),
}

/// A formula. Parts that are formulas, elements or set terms are named by their numbers.
#[derive(Drop)]
pub enum Formula {
    /// The constant `true`.
    True,
    /// The constant `false`.
    False,
    /// A Bool constant.
    Flag(u32),
    /// A formula is false.
    Not(u32),
    /// Each of the formulas is true.
    And(Numbers),
    /// One of the formulas is true.
    Or(Numbers),
    /// Two formulas are both true or both false.
    Iff(u32, u32),
    /// Two elements of one declared sort are equal.
    Eq(u32, u32),
    /// Two sets are equal.
    EqSet(u32, u32),
    /// An element lies in a set.
    Member(u32, u32),
    /// An inequality.
    Le(Row),
}

/// A term for a set.
#[derive(Clone, Copy, Debug)]
pub enum SetTerm {
    /// A constant, and its sort.
    Const(u32, Sort),
    /// The empty set of a sort of sets.
    Empty(Sort),
    /// The set of one element.
    Single(u32),
    /// What is in one of two sets.
    Union(u32, u32),
    /// What is in both of two sets.
    Inter(u32, u32),
    /// What is in the first set and not in the second.
    Minus(u32, u32),
}

/// What may lie in a set.
#[derive(Drop)]
pub enum Element {
    /// A constant of a declared sort, and its sort.
    Const(u32, Sort),
    /// A linear integer term.
    Number(Affine),
    /// The least integer in exactly one of two sets, the lower-numbered first, or 0 where they are equal.
    Diff(u32, u32),
}

/// A formula, a set term or an element.
#[derive(Drop)]
pub enum Node {
    Formula(Formula),
    Set(SetTerm),
    Element(Element),
}

impl PartialEq for Sort {
    ghost use Rattle.std.specs.Cmp.{partial_equiv_from_equiv, decided};
    ghost use Rattle.sc_terms.specs.Same.{same_sort, same_sort-Decides};

    ghost eq = { same_sort };

    ghost laws = { partial_equiv_from_equiv (decided same_sort same_sort-Decides) };

    fn eq(&self, other: &Sort) -> bool {
        match (self, other) {
            (Sort::Bool, Sort::Bool) => true,
            (Sort::Int, Sort::Int) => true,
            (Sort::Named(m), Sort::Named(n)) => m == n,
            (Sort::SetInt, Sort::SetInt) => true,
            (Sort::SetNamed(m), Sort::SetNamed(n)) => m == n,
            _ => false,
        }
    }
}

impl Eq for Sort {
    ghost use Rattle.std.specs.Cmp.{decided};
    ghost use Rattle.sc_terms.specs.Same.{same_sort, same_sort-Decides};

    ghost laws = { decided same_sort same_sort-Decides };
}

impl PartialEq for Formula {
    ghost use Rattle.std.specs.Cmp.{partial_equiv_from_equiv, decided};
    ghost use Rattle.sc_terms.specs.Same.{same_formula, same_formula-Decides};

    ghost eq = { same_formula };

    ghost laws = { partial_equiv_from_equiv (decided same_formula same_formula-Decides) };

    fn eq(&self, other: &Formula) -> bool {
        match (self, other) {
            (Formula::True, Formula::True) => true,
            (Formula::False, Formula::False) => true,
            (Formula::Flag(m), Formula::Flag(n)) => m == n,
            (Formula::Not(m), Formula::Not(n)) => m == n,
            (Formula::And(a), Formula::And(b)) => a == b,
            (Formula::Or(a), Formula::Or(b)) => a == b,
            (Formula::Iff(a, b), Formula::Iff(c, d)) => a == c && b == d,
            (Formula::Eq(a, b), Formula::Eq(c, d)) => a == c && b == d,
            (Formula::EqSet(a, b), Formula::EqSet(c, d)) => a == c && b == d,
            (Formula::Member(a, b), Formula::Member(c, d)) => a == c && b == d,
            (Formula::Le(a), Formula::Le(b)) => a == b,
            _ => false,
        }
    }
}

impl Eq for Formula {
    ghost use Rattle.std.specs.Cmp.{decided};
    ghost use Rattle.sc_terms.specs.Same.{same_formula, same_formula-Decides};

    ghost laws = { decided same_formula same_formula-Decides };
}

impl PartialEq for SetTerm {
    ghost use Rattle.std.specs.Cmp.{partial_equiv_from_equiv, decided};
    ghost use Rattle.sc_terms.specs.Same.{same_set, same_set-Decides};

    ghost eq = { same_set };

    ghost laws = { partial_equiv_from_equiv (decided same_set same_set-Decides) };

    fn eq(&self, other: &SetTerm) -> bool {
        match (self, other) {
            (SetTerm::Const(m, s), SetTerm::Const(n, t)) => m == n && s == t,
            (SetTerm::Empty(s), SetTerm::Empty(t)) => s == t,
            (SetTerm::Single(m), SetTerm::Single(n)) => m == n,
            (SetTerm::Union(a, b), SetTerm::Union(c, d)) => a == c && b == d,
            (SetTerm::Inter(a, b), SetTerm::Inter(c, d)) => a == c && b == d,
            (SetTerm::Minus(a, b), SetTerm::Minus(c, d)) => a == c && b == d,
            _ => false,
        }
    }
}

impl Eq for SetTerm {
    ghost use Rattle.std.specs.Cmp.{decided};
    ghost use Rattle.sc_terms.specs.Same.{same_set, same_set-Decides};

    ghost laws = { decided same_set same_set-Decides };
}

impl PartialEq for Element {
    ghost use Rattle.std.specs.Cmp.{partial_equiv_from_equiv, decided};
    ghost use Rattle.sc_terms.specs.Same.{same_element, same_element-Decides};

    ghost eq = { same_element };

    ghost laws = { partial_equiv_from_equiv (decided same_element same_element-Decides) };

    fn eq(&self, other: &Element) -> bool {
        match (self, other) {
            (Element::Const(m, s), Element::Const(n, t)) => m == n && s == t,
            (Element::Number(a), Element::Number(b)) => a == b,
            (Element::Diff(a, b), Element::Diff(c, d)) => a == c && b == d,
            _ => false,
        }
    }
}

impl Eq for Element {
    ghost use Rattle.std.specs.Cmp.{decided};
    ghost use Rattle.sc_terms.specs.Same.{same_element, same_element-Decides};

    ghost laws = { decided same_element same_element-Decides };
}

impl Hash for SetTerm {
    ghost use Rattle.std.proofs.Common.{ap};
    ghost use Rattle.sc_terms.specs.Same.{same_set-Decides};
    ghost use Rattle.sc_terms.specs.Inputs.{set_input};

    ghost hash_input = { set_input };

    ghost respects_eq = { λ x y e. ap set_input ((same_set-Decides x y).0 e) };

    fn hash<H: Hasher>(&self, state: &mut H) {
        match self {
            SetTerm::Const(n, _) => {
                state.write_u8(0);
                n.hash(state);
            }
            SetTerm::Empty(_) => {
                state.write_u8(1);
            }
            SetTerm::Single(n) => {
                state.write_u8(2);
                n.hash(state);
            }
            SetTerm::Union(a, b) => {
                state.write_u8(3);
                a.hash(state);
                b.hash(state);
            }
            SetTerm::Inter(a, b) => {
                state.write_u8(4);
                a.hash(state);
                b.hash(state);
            }
            SetTerm::Minus(a, b) => {
                state.write_u8(5);
                a.hash(state);
                b.hash(state);
            }
        }
    }
}

impl Hash for Element {
    ghost use Rattle.std.proofs.Common.{ap};
    ghost use Rattle.sc_terms.specs.Same.{same_element-Decides};
    ghost use Rattle.sc_terms.specs.Inputs.{element_input};

    ghost hash_input = { element_input };

    ghost respects_eq = { λ x y e. ap element_input ((same_element-Decides x y).0 e) };

    fn hash<H: Hasher>(&self, state: &mut H) {
        match self {
            Element::Const(n, _) => {
                state.write_u8(0);
                n.hash(state);
            }
            Element::Number(affine) => {
                state.write_u8(1);
                affine.hash(state);
            }
            Element::Diff(a, b) => {
                state.write_u8(2);
                a.hash(state);
                b.hash(state);
            }
        }
    }
}

/// The place of the variant among the variants of formulas.
fn formula_kind(formula: &Formula) -> u8
    ensures { result ≡ formula_kind formula.now }
{
    match formula {
        Formula::True => 0,
        Formula::False => 1,
        Formula::Flag(_) => 2,
        Formula::Not(_) => 3,
        Formula::And(_) => 4,
        Formula::Or(_) => 5,
        Formula::Iff(_, _) => 6,
        Formula::Eq(_, _) => 7,
        Formula::EqSet(_, _) => 8,
        Formula::Member(_, _) => 9,
        Formula::Le(_) => 10,
    }
}

impl Hash for Formula {
    ghost use Rattle.std.proofs.Common.{ap};
    ghost use Rattle.sc_terms.specs.Same.{same_formula-Decides};
    ghost use Rattle.sc_terms.specs.Inputs.{formula_input};

    ghost hash_input = { formula_input };

    ghost respects_eq = { λ x y e. ap formula_input ((same_formula-Decides x y).0 e) };

    fn hash<H: Hasher>(&self, state: &mut H) {
        state.write_u8(formula_kind(self));
        match self {
            Formula::True | Formula::False => {}
            Formula::Flag(n) | Formula::Not(n) => n.hash(state),
            Formula::And(parts) | Formula::Or(parts) => parts.hash(state),
            Formula::Iff(a, b) | Formula::Eq(a, b) | Formula::EqSet(a, b) | Formula::Member(a, b) =>
                {
                    a.hash(state);
                    b.hash(state);
                }
            Formula::Le(row) => row.hash(state),
        }
    }
}

impl PartialEq for Node {
    ghost use Rattle.std.specs.Cmp.{partial_equiv_from_equiv, decided};
    ghost use Rattle.sc_terms.specs.Same.{same_node, same_node-Decides};

    ghost eq = { same_node };

    ghost laws = { partial_equiv_from_equiv (decided same_node same_node-Decides) };

    fn eq(&self, other: &Node) -> bool {
        match (self, other) {
            (Node::Formula(f), Node::Formula(g)) => f == g,
            (Node::Set(s), Node::Set(t)) => s == t,
            (Node::Element(e), Node::Element(f)) => e == f,
            _ => false,
        }
    }
}

impl Eq for Node {
    ghost use Rattle.std.specs.Cmp.{decided};
    ghost use Rattle.sc_terms.specs.Same.{same_node, same_node-Decides};

    ghost laws = { decided same_node same_node-Decides };
}

impl Hash for Node {
    ghost use Rattle.std.proofs.Common.{ap};
    ghost use Rattle.sc_terms.specs.Same.{same_node-Decides};
    ghost use Rattle.sc_terms.specs.Inputs.{node_input};

    ghost hash_input = { node_input };

    ghost respects_eq = { λ x y e. ap node_input ((same_node-Decides x y).0 e) };

    fn hash<H: Hasher>(&self, state: &mut H) {
        match self {
            Node::Formula(formula) => {
                state.write_u8(0);
                formula.hash(state);
            }
            Node::Set(set) => {
                state.write_u8(1);
                set.hash(state);
            }
            Node::Element(element) => {
                state.write_u8(2);
                element.hash(state);
            }
        }
    }
}

/// A copy is equal.
impl Clone for Formula {
    ghost use Rattle.std.specs.Prelude.{◌≡◌};

    ghost is_clone = { λ a b. b ≡ a };

    fn clone(&self) -> Result<Formula, AllocError> {
        match self {
            Formula::True => Ok(Formula::True),
            Formula::False => Ok(Formula::False),
            Formula::Flag(n) => Ok(Formula::Flag(*n)),
            Formula::Not(n) => Ok(Formula::Not(*n)),
            Formula::And(parts) => Ok(Formula::And(parts.clone()?)),
            Formula::Or(parts) => Ok(Formula::Or(parts.clone()?)),
            Formula::Iff(a, b) => Ok(Formula::Iff(*a, *b)),
            Formula::Eq(a, b) => Ok(Formula::Eq(*a, *b)),
            Formula::EqSet(a, b) => Ok(Formula::EqSet(*a, *b)),
            Formula::Member(a, b) => Ok(Formula::Member(*a, *b)),
            Formula::Le(row) => Ok(Formula::Le(row.clone()?)),
        }
    }
}

/// A copy is equal.
impl Clone for Element {
    ghost use Rattle.std.specs.Prelude.{◌≡◌};

    ghost is_clone = { λ a b. b ≡ a };

    fn clone(&self) -> Result<Element, AllocError> {
        match self {
            Element::Const(n, sort) => Ok(Element::Const(*n, *sort)),
            Element::Number(affine) => Ok(Element::Number(affine.clone()?)),
            Element::Diff(a, b) => Ok(Element::Diff(*a, *b)),
        }
    }
}
