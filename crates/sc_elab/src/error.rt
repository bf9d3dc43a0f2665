//! Errors.

use sc_text::Code;

/// Why a term has no core formula.
#[derive(Clone, Copy)]
pub enum ElabError {
    /// The first fault of the term.
    Fault(Code),
    /// There was no memory.
    Memory,
}
