//! Verdicts.

use crate::tree::Tree;
use sc_deriv::Derivation;
use sc_terms::Interp;

/// What is said of a problem.
#[derive(Drop)]
pub enum Verdict {
    /// These values make its roots true.
    Sat(Interp),
    /// This derivation refutes it, so that no values make its roots true.
    Unsat(Derivation),
    /// Every branch of this tree was closed or given up, and some was given up.
    Unknown(Tree),
}
