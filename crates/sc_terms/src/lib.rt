//! The terms of a problem, numbered, and what they mean: formulas over finite sets of integers or of a declared sort, with linear integer arithmetic and cardinality.
//!
//! The meaning of the set operators is that of cvc5's theory of finite sets; the regions of a component and the differing element of two sets are those of Bansal, Reynolds, Barrett and Tinelli, "A New Decision Procedure for Finite Sets and Cardinality Constraints in SMT" (IJCAR 2016).
#![tactic(auto)]

mod atoms;
mod bank;
mod form;
mod interp;
mod laws;
mod lookups;
mod memory;
mod nodes;
mod problem;
#[cfg(test)]
mod tests;

pub use atoms::{Atom, Cube, Sign, Signs};
pub use bank::{Bank, BankError, LIMIT};
pub use form::{Affine, Form, Row};
pub use interp::{Interp, Members, Value};
pub use laws::{
    bank_grows, bank_meanings_fit, bank_nodes, bank_sorts, bank_with_node, cubes_ascend_as_words,
    literals_make_problem, meanings_fit, meanings_stay,
};
pub use memory::Memory;
pub use nodes::{Element, Formula, Node, Numbers, SetTerm, Sort};
pub use problem::{Bases, Counts, Elements, Formulas, Parts, Problem, Sets};
pub use sc_base::{Sequence, Span, item_at};
