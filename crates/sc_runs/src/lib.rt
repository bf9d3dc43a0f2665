//! Sets of integers of 128 bits, kept as ascending runs.
#![tactic(auto)]

mod error;
pub mod laws;
mod places;
mod runs;
mod spans;
#[cfg(test)]
mod tests;

pub use error::{FreshError, Memory, Wide};
pub use runs::Runs;
pub use sc_base::Span;
