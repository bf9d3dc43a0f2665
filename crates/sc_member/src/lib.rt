//! Memberships that follow from what is said of members and equalities.
//!
//! A fact is followed up once when it comes, by the set terms of which its set term is an argument, the elements and set terms that are said to equal its own, and the sets of one element. What is answered was tried by the steps' definition. The steps are the rules for membership in finite sets of Bansal, Reynolds, Barrett and Tinelli, "A New Decision Procedure for Finite Sets and Cardinality Constraints in SMT" (IJCAR 2016), that have one branch.
#![tactic(auto)]

mod agenda;
mod candidates;
mod index;
mod notes;
mod table;

pub use table::MemberTable;

#[cfg(test)]
mod tests;
