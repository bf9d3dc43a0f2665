//! Solving a script of SMT-LIB 2.6, from the bytes of a source to the bytes of a sink.
//!
//! [`solve`] reads a script to its end and writes the responses to its commands, one after the
//! other. `SolveEnds` of `specs/Ends.antt` says how it ends, and why.
#![tactic(auto)]

mod ending;
mod respond;
mod solver;

pub use ending::Ending;
pub use solver::{Solved, solve};
