//! From the terms and sorts of SMT-LIB 2.6 scripts to core formulas in the bank, and to sorts.
//!
//! [`elaborate`] gives the core formula of a term, or the term's first fault, depth first and from
//! left to right: `core` of `specs/Elab.antt` says which. Under every interpretation the formula
//! has the truth value of the term ([`elaboration_keeps_meaning`]). [`read_sort`] gives the sort
//! that a tree spells, or its first fault.
#![tactic(auto)]

mod apply;
mod build;
mod elab;
mod error;
mod heads;
mod laws;
mod meant;
mod set_terms;
mod sorts;
mod words;

pub use elab::elaborate;
pub use error::ElabError;
pub use laws::{
    declarations_keep_sorts, elaboration_grows_bank, elaboration_keeps_meaning,
    elaboration_keeps_posed, faults_are_named, read_sorts_are_declared,
};
pub use sorts::read_sort;

#[cfg(test)]
mod tables;
#[cfg(test)]
mod tests;
