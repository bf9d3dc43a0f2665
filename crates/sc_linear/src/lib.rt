//! Exact arithmetic on rows: a linear form over atoms is at most a bound.
//!
//! Rows are the linear inequalities of the arithmetic part of the calculus of Bansal, Reynolds, Barrett and Tinelli, "A New Decision Procedure for Finite Sets and Cardinality Constraints in SMT" (IJCAR 2016), over the integers of SMT-LIB 2.6. Coefficients and bounds have 128 bits; an operation whose exact result has more is refused, and says which numbers it was given.
#![tactic(auto)]

mod exact;
mod laws;
mod rows;
mod sums;
#[cfg(test)]
mod tests;

pub use exact::{LinearError, Op, TightenError};
pub use laws::{
    forms_are_coefficients, opposites_hold, quotients_hold, rows_hold_by_atoms, sums_add_values,
    sums_hold,
};
pub use rows::{add_scaled, negate, single, tighten};
pub use sums::RowSum;
