//! Programs that show that rows can't all hold: sums of multiples of rows, and quotients, that end in 0 <= -1.
//!
//! They close branches of the arithmetic part of the calculus of Bansal, Reynolds, Barrett and Tinelli, "A New Decision Procedure for Finite Sets and Cardinality Constraints in SMT" (IJCAR 2016), over the integers of SMT-LIB 2.6.
#![tactic(auto)]

mod given;
mod judge;
mod laws;
mod program;
#[cfg(test)]
mod tests;

pub use judge::{refutes, refutes_rows};
pub use laws::{
    failures_are_the_first, items_want_no_memory, refuted_paths_do_not_hold,
    refuted_rows_have_no_values, yes_gives_rows,
};
pub use program::{Item, Judged, RowProgram, Terms};
