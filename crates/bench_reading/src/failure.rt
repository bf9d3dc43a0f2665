//! What ends a run of the program early.

use std::alloc::AllocError;
use std::io;

/// Why no count is printed.
#[derive(Clone, Copy, Debug, Drop)]
pub enum Failure {
    /// The words of the command line are not one name of a work.
    Words,
    /// There was no memory.
    Memory,
    /// Reading the words or the input, or writing, failed.
    Outside,
}

impl From<AllocError> for Failure {
    fn from(_error: AllocError) -> Failure {
        Failure::Memory
    }
}

impl From<io::Error> for Failure {
    fn from(_error: io::Error) -> Failure {
        Failure::Outside
    }
}

impl From<sc_sexpr::Memory> for Failure {
    fn from(_error: sc_sexpr::Memory) -> Failure {
        Failure::Memory
    }
}
