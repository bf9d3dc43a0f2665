//! The sorts of the numbered terms of a problem, and which problems are well sorted.
//!
//! The sorts are those of cvc5's theory of finite sets: sets of integers, and sets of a declared sort. A problem's terms carry the sorts of their constants and empty sets alone; that of every other term is found by its first part.
#![tactic(auto)]

mod laws;
mod sorts;
#[cfg(test)]
mod tests;

pub use laws::{sorts_are_found, sorts_match};
pub use sorts::{element_sort, elements_alike, may_hold, members_sort, sets_alike};
