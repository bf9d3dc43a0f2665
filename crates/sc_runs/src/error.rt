ghost use Rattle.std.specs.Prelude.{◌≡◌};

use std::alloc::AllocError;
use thiserror::Error;

/// There was no memory.
#[derive(Clone, Copy, Debug, PartialEq, Eq)]
pub struct Memory;

/// A count passes 128 bits.
#[derive(Clone, Copy, Debug, PartialEq, Eq)]
pub struct Wide;

/// Why no fresh numbers were given.
#[derive(Clone, Copy, Debug, PartialEq, Eq, Error)]
pub enum FreshError {
    /// Fewer numbers of 128 bits than asked for lie outside the set.
    #[error("too few numbers are left")]
    Wide,
    /// There was no memory.
    #[error("out of memory")]
    Memory,
}

impl From<AllocError> for Memory {
    fn from(_error: AllocError) -> Memory {
        Memory
    }
}

impl From<AllocError> for FreshError {
    ghost use Rattle.sc_runs.specs.declared.error.FreshError.TheVariants as fresh_errors;

    ghost from_gives = { λ _ e. e ≡ fresh_errors.Memory };

    fn from(_error: AllocError) -> FreshError {
        FreshError::Memory
    }
}

impl From<Memory> for FreshError {
    ghost use Rattle.sc_runs.specs.declared.error.FreshError.TheVariants as fresh_errors;

    ghost from_gives = { λ _ e. e ≡ fresh_errors.Memory };

    fn from(_error: Memory) -> FreshError {
        FreshError::Memory
    }
}
