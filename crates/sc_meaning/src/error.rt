ghost use Rattle.std.specs.Prelude.{◌≡◌};

use thiserror::Error;

/// Why there is no value.
#[derive(Clone, Copy, Debug, PartialEq, Eq, Error)]
pub enum EvalError {
    /// A product of a form, the value of an Int term, the left side of an inequality or a cardinality leaves 128 bits.
    #[error("a number passes 128 bits")]
    Wide,
    /// There was no memory.
    #[error("out of memory")]
    Memory,
}

impl From<sc_runs::Memory> for EvalError {
    ghost use Rattle.sc_meaning.specs.declared.error.EvalError.TheVariants as errors;

    ghost from_gives = { λ _ e. e ≡ errors.Memory };

    fn from(_error: sc_runs::Memory) -> EvalError {
        EvalError::Memory
    }
}

impl From<sc_terms::Memory> for EvalError {
    ghost use Rattle.sc_meaning.specs.declared.error.EvalError.TheVariants as errors;

    ghost from_gives = { λ _ e. e ≡ errors.Memory };

    fn from(_error: sc_terms::Memory) -> EvalError {
        EvalError::Memory
    }
}
