//! Reading a source into a splitter.
//!
//! [`gather`] feeds the bytes of a source to a splitter, piece by piece, up to the end of the source
//! or a number of bytes. `GatherGives` of `specs/Gathering.antt` says what was read and fed, and why
//! no more was.
#![tactic(auto)]

mod gathering;

pub use gathering::{GatherError, Reach, gather};

#[cfg(test)]
mod tests;
