//! The names and the assertions that are in force in a script of SMT-LIB 2.6: declared sorts, declared constants and asserted formulas, by the levels of its assertion stack.
//!
//! A name is given without the bars of a quoted symbol. Sorts and constants share one name space. They are numbered from 1 in the order of their declarations, each kind by itself, and a number is never given twice. `Names` of `specs/Names.antt` is what contracts see of a [`Stack`].
#![tactic(auto)]

mod laws;
mod stack;
#[cfg(test)]
mod tests;

pub use laws::{constants_have_sorts, names_have_numbers, own_names_are_found};
pub use stack::{Constant, Named, Stack, StackError};
