//! Why a text gave no derivation.

ghost use Rattle.std.specs.Prelude.{◌≡◌};
ghost use Rattle.sc_deriv_text.specs.declared.errors.PartError.TheVariants as parts;

use sc_deriv::Reason;
use std::alloc::AllocError;
use thiserror::Error;

/// Why a tree of tokens gave no derivation.
#[derive(Clone, Copy, Debug, PartialEq, Eq, Error)]
pub enum TextError {
    /// It spells none: the first of `P1` to `P6` in the order of the text, and the number of its node. Nodes count from 1; for `P1` it is the number of nodes read before.
    #[error("derivation refused")]
    Refused { node: u64, reason: Reason },
    /// There was no memory.
    #[error("out of memory")]
    Memory,
}

/// Why a part of a derivation could not be read.
#[derive(Clone, Copy)]
pub enum PartError {
    Refused(Reason),
    Memory,
}

impl From<Reason> for PartError {
    ghost from_gives = { λ reason e. e ≡ parts.Refused reason };

    fn from(reason: Reason) -> PartError {
        PartError::Refused(reason)
    }
}

impl From<AllocError> for PartError {
    ghost from_gives = { λ _ e. e ≡ parts.Memory };

    fn from(_: AllocError) -> PartError {
        PartError::Memory
    }
}
