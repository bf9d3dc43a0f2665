//! Operations on numbers of 128 bits that tell where the exact result has more.

ghost use Rattle.std.specs.Prelude.{◌≡◌};
ghost use Rattle.sc_linear.specs.Exact.{product, computed};

use sc_terms::Memory;
use std::alloc::{AllocError, AllocFailed};
use thiserror::Error;

/// An operation on two integers.
#[derive(Clone, Copy, Debug, PartialEq, Eq)]
pub enum Op {
    Add,
    Multiply,
}

/// Why there is no sum, or no opposite row.
#[derive(Clone, Copy, Debug, PartialEq, Eq)]
pub enum LinearError {
    /// The exact result of the operation on these numbers lies outside -2^127 to 2^127 - 1. It is the first such operation. A product is that of the factor `a` and a row's number `b`; a sum is that of the first row's number `a` and the product `b`.
    Wide { op: Op, a: i128, b: i128 },
    /// There was no memory.
    Memory,
}

/// Why a row is not divided.
#[derive(Clone, Copy, Debug, PartialEq, Eq, Error)]
pub enum TightenError {
    /// A coefficient is no multiple of the divisor.
    #[error("a coefficient is not divisible")]
    NotDivisible,
    /// There was no memory.
    #[error("out of memory")]
    Memory,
}

impl From<AllocError> for LinearError {
    ghost use Rattle.sc_linear.specs.declared.exact.LinearError.TheVariants as errors;

    ghost from_gives = { λ _ e. e ≡ errors.Memory };

    fn from(_error: AllocError) -> LinearError {
        LinearError::Memory
    }
}

impl From<Memory> for LinearError {
    ghost use Rattle.sc_linear.specs.declared.exact.LinearError.TheVariants as errors;

    ghost from_gives = { λ _ e. e ≡ errors.Memory };

    fn from(_error: Memory) -> LinearError {
        LinearError::Memory
    }
}

impl From<AllocError> for TightenError {
    ghost use Rattle.sc_linear.specs.declared.exact.TightenError.TheVariants as errors;

    ghost from_gives = { λ _ e. e ≡ errors.Memory };

    fn from(_error: AllocError) -> TightenError {
        TightenError::Memory
    }
}

impl<T: Drop> From<AllocFailed<T>> for LinearError {
    ghost use Rattle.sc_linear.specs.declared.exact.LinearError.TheVariants as errors;

    ghost from_gives = { λ _ e. e ≡ errors.Memory };

    fn from(_error: AllocFailed<T>) -> LinearError {
        LinearError::Memory
    }
}

/// The product of two numbers.
pub(crate) fn times(a: i128, b: i128) -> Result<i128, LinearError>
    ensures { result ≡ computed (product a b) }
{
    match a.checked_mul(b) {
        Some(product) => Ok(product),
        None => Err(LinearError::Wide {
            op: Op::Multiply,
            a,
            b,
        }),
    }
}
