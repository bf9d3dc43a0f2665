//! The search on one path: steps that follow from its facts, values that are read off it and tried on the assertions, and splits.
#![tactic(auto)]

mod agenda;
mod branch;
mod candidate;
mod clash;
mod column;
mod growth;
mod guess;
mod joins;
mod labels;
mod lists;
mod members;
mod parents;
mod refine;
mod said;
mod seen;
mod shadow;
mod spread;
mod task;
mod terms;
mod trials;

pub use branch::Branch;
