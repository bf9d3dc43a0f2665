//! The stock: the problem of a list of assertions, in which each formula, set term, element and Int constant that they need has a number, once.
//!
//! A walk over the assertions in order gives each node the next number of its kind when it is first met, and goes on to its parts, from left to right, only then. Two different sets in an equation add the element in which they differ, if they do. Set terms that are arguments of one another, or sides of an equation, make up a component, whose basis is its set constants and its sets of one element: the regions over which cardinalities are added in the calculus of Bansal, Reynolds, Barrett and Tinelli, "A New Decision Procedure for Finite Sets and Cardinality Constraints in SMT" (IJCAR 2016).
#![tactic(auto)]

mod assemble;
mod classes;
mod components;
mod diffs;
mod forms;
mod laws;
mod links;
mod nodes;
mod pending;
mod tables;
#[cfg(test)]
mod tests;
mod walk;

pub use assemble::prepare;
pub use laws::{
    components_ascend, leasts_are_of_classes, meanings_agree, sorts_stay, stocks_are_posed,
    stocks_are_problems, stocks_fit, stocks_have_diffs, stocks_have_plain_forms,
    stocks_name_no_diffs, stocks_stay, stocks_stay_sorted,
};
