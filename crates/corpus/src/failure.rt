//! What ends a run of the program early.

use std::alloc::AllocError;
use std::io;

/// Why no further script is read.
#[derive(Clone, Copy, Debug, Drop)]
pub enum Failure {
    /// A script has an error, which was printed.
    Script,
    /// There was no memory.
    Memory,
    /// Reading the names or a file, or writing, failed.
    Outside,
}

impl From<AllocError> for Failure {
    fn from(_error: AllocError) -> Failure {
        Failure::Memory
    }
}

impl From<io::Error> for Failure {
    fn from(_error: io::Error) -> Failure {
        Failure::Outside
    }
}
