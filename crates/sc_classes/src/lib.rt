//! Classes of elements that are said to be equal.
//!
//! The classes are those of the least equivalence that holds the merged pairs (union-find, by rank). That two elements are in one class is explained by a chain of merged pairs between them, in steps of a derivation.
#![tactic(auto)]

mod chains;
mod classes;
mod explain;
mod forest;
mod neighbours;
#[cfg(test)]
mod tests;

pub use classes::{Classes, PlainSteps};
