//! Derivations that a problem has no model, and a checker on which others can rely.
//!
//! A derivation is a tree of steps, its nodes in preorder. Each node stands on the path of facts that its branch holds: the problem's roots at first, then what the steps conclude. A step goes on with each of its branches; a closing ends its branch, where the facts contradict one another. Where every branch is closed, no interpretation makes the roots true. This is a tableau proof for the calculus of Bansal, Reynolds, Barrett and Tinelli, "A New Decision Procedure for Finite Sets and Cardinality Constraints in SMT" (IJCAR 2016).
#![tactic(auto)]

mod checker;
mod derivation;
mod laws;
mod spelling;
mod stack;
#[cfg(test)]
mod tests;
mod walk;

pub use checker::{check, clashes, closing_fault, step_branches};
pub use derivation::{
    Closing, Derivation, Judgement, Lemma, Lemmas, Node, Nodes, Reason, Step, Steps, Taken,
};
pub use laws::{
    accepts_closed_trees, closed_trees_refute, lemmas_follow, refuses_first_failure, steps_add,
    steps_lead_on,
};
pub use sc_facts::{Fact, FactName, Facts};
pub use sc_rules::PlainStep;
pub use spelling::is_spelt;
