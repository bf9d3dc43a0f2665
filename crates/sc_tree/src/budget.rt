//! How long is worked on a check.

/// How much work a check may take.
#[derive(Clone, Copy, Debug, PartialEq, Eq)]
pub enum Budget {
    /// So many steps on each branch, 1 to 2^40.
    Steps(u64),
    /// The most steps that there are, 2^40 on each branch.
    Full,
}
