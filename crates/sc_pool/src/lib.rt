//! The lemmas that a search has found, by their hypotheses, and which is the least that applies to a path.
//!
//! A lemma says that its hypotheses can't all be true together with the roots of a problem, so that a branch on whose path all of them stand needs no proof of its own. The pool knows the hypotheses alone: that a lemma is right is judged before it is added. The facts are those of the calculus of Bansal, Reynolds, Barrett and Tinelli, "A New Decision Procedure for Finite Sets and Cardinality Constraints in SMT" (IJCAR 2016).
//!
//! Each lemma is kept under one of its facts, the last, as SAT solvers keep clauses under one watched literal where they look for a clause that is part of another.
#![tactic(auto)]

mod laws;
mod pool;
#[cfg(test)]
mod tests;

pub use laws::least_applies;
pub use pool::Pool;
