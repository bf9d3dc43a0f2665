//! The steps of a derivation that need no region tree: those on the signs of formulas, and those on members and equalities.
//!
//! A step applies where its condition holds on the path, and then has one branch or two, each with the facts that it concludes.
#![tactic(auto)]

mod boolean;
mod laws;
mod members;
mod pairs;
mod premise;
mod step;
#[cfg(test)]
mod tests;

pub use boolean::{own_sign, sign_of};
pub use laws::{
    earliest_is_first, premises_have_places, premises_keep_steps, premises_stand,
    premises_where_steps_apply, steps_are_sound,
};
pub use members::membership_of;
pub use pairs::{equal_fact, equality_of, same_set_fact, set_equality_of};
pub use premise::{premise_places, premises};
pub use step::{Branches, PlainStep, StepError, apply, conclusion};
