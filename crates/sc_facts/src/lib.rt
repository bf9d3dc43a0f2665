//! Facts about the nodes of a problem, and paths of facts.
//!
//! A derivation's branch is a path: the problem's roots, then the facts that its steps conclude. Facts on members, equalities, regions and rows are those of the calculus of Bansal, Reynolds, Barrett and Tinelli, "A New Decision Procedure for Finite Sets and Cardinality Constraints in SMT" (IJCAR 2016).
#![tactic(auto)]

mod fact;
mod facts;
mod name;
mod note;
mod path;
mod places;
#[cfg(test)]
mod tests;

pub use fact::Fact;
pub use facts::Facts;
pub use name::FactName;
pub use note::{Cubes, Note, RowNumbers};
pub use path::Path;
