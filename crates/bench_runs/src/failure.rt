//! What ends a run of the program early.

use sc_meaning::EvalError;
use sc_runs::Span;
use sc_terms::BankError;
use std::alloc::{AllocError, AllocFailed};
use std::io;

/// Why no numbers are printed.
#[derive(Clone, Copy, Debug, Drop)]
pub enum Failure {
    /// The words of the command line are no work with a count.
    Words,
    /// There was no memory.
    Memory,
    /// A bank is full, or a number passes 128 bits.
    TooMany,
    /// Reading the words, or writing, failed.
    Outside,
}

impl From<AllocError> for Failure {
    fn from(_error: AllocError) -> Failure {
        Failure::Memory
    }
}

impl From<AllocFailed<Span>> for Failure {
    fn from(_error: AllocFailed<Span>) -> Failure {
        Failure::Memory
    }
}

impl From<io::Error> for Failure {
    fn from(_error: io::Error) -> Failure {
        Failure::Outside
    }
}

impl From<sc_runs::Memory> for Failure {
    fn from(_error: sc_runs::Memory) -> Failure {
        Failure::Memory
    }
}

impl From<sc_runs::Wide> for Failure {
    fn from(_error: sc_runs::Wide) -> Failure {
        Failure::TooMany
    }
}

impl From<sc_terms::Memory> for Failure {
    fn from(_error: sc_terms::Memory) -> Failure {
        Failure::Memory
    }
}

impl From<BankError> for Failure {
    fn from(error: BankError) -> Failure {
        match error {
            BankError::Full => Failure::TooMany,
            BankError::Memory => Failure::Memory,
        }
    }
}

impl From<EvalError> for Failure {
    fn from(error: EvalError) -> Failure {
        match error {
            EvalError::Wide => Failure::TooMany,
            EvalError::Memory => Failure::Memory,
        }
    }
}
