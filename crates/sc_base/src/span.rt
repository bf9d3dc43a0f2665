//! Spans of integers.

/// The integers from `low` to `high`, both among them.
#[derive(Clone, Copy, Debug, PartialEq, Eq)]
pub struct Span {
    /// The least of them.
    pub low: i128,
    /// The greatest of them.
    pub high: i128,
}
