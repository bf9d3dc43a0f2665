//! The printed forms of symbols, numbers, values of declared sorts, and errors.
//!
//! Each function appends bytes to a buffer, or, where there is no memory for them, leaves the
//! buffer as it was. The forms are those of SMT-LIB 2.6, so that what is printed can be read back:
//! `sc_text` finds in it the tokens of the very symbol, number, value or error
//! ([`symbols_read_back`], [`numbers_read_back`], [`values_read_back`], [`errors_read_back`]).
#![tactic(auto)]

mod append;
mod error;
mod laws;
mod memory;
mod numbers;
mod symbols;

pub use error::error_line;
pub use laws::{
    errors_read_back, numbers_read_back, symbols_read_back, values_differ, values_read_back,
};
pub use memory::Memory;
pub use numbers::number;
pub use symbols::{abstract_value, symbol};

#[cfg(test)]
mod tests;
