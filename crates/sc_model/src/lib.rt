//! When a path gives a model, and what is due on it where it does not.
//!
//! A tableau's open branch that is saturated is satisfiable (Smullyan, "First-Order Logic", 1968). For finite sets each class of equal elements gets a number of its own, and a set has the numbers of the classes that the branch puts into it (Bansal, Reynolds, Barrett, Tinelli, IJCAR 2016).
#![tactic(auto)]

mod deciding;
mod equations;
mod laws;
mod links;
mod members;
mod model;
mod signs;
mod steps;

pub use deciding::first_due;
pub use laws::{read_off_values_show, settled_paths_have_models};
pub use model::model_of;
pub use steps::Due;
