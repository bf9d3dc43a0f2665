//! Verdicts on a problem, and the tree of branches that leads to one.
//!
//! A verdict says that the problem has a model, and gives one; or that it has none, and gives a derivation that others can check; or that every branch was closed or given up, and some was given up.
//!
//! The tree is a machine that several seats drive. A seat takes an open leaf, makes its path longer by steps, splits it, closes it, gives it up or finds a model. A path stays lean: each step brings a new fact, and no two steps say the same. So no branch is given up before as many different steps were taken as the budget allows, but for one on which a number passes 128 bits. The tree keeps a journal, from which its state follows.
#![tactic(auto)]

mod budget;
mod climb;
mod decider;
mod laws;
mod machine;
mod opened;
mod places;
mod reading;
mod seats;
#[cfg(test)]
mod tests;
mod tree;
mod verdict;

pub use budget::Budget;
pub use decider::Decider;
pub use laws::{
    closed_trees_are_spelt, leaves_are_given_up, leaves_are_held, leaves_are_tried, models_show,
    seats_hold_one, splits_are_lean, steps_are_lean, tickets_stay,
};
pub use machine::{Cause, Chain, Entry, Event, Mark, Place, Reply, SeenCause};
pub use sc_deriv::{Closing, Derivation, Step, Steps, Taken};
pub use sc_facts::Note;
pub use sc_terms::{Interp, Memory, Problem};
pub use tree::Tree;
pub use verdict::Verdict;
