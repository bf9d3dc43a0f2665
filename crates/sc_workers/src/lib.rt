//! Deciding problems: workers take leaves of a tree and go on with them until the tree has its answer.
#![tactic(auto)]

mod alone;

pub use alone::{Alone, decide_alone};
