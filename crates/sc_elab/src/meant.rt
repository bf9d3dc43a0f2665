//! What terms come to.

use sc_terms::Sort;

/// What a term comes to.
#[derive(Clone, Copy, Drop)]
pub struct Meant {
    /// Its sort.
    pub sort: Sort,
    /// The number of its node in the bank.
    pub number: u32,
    /// The number of nodes on the longest path from its top.
    pub depth: u32,
}
