//! How a run ended.

use sc_session::Verdicts;

/// How a run ended.
#[derive(Drop)]
pub struct Ended {
    /// The exit status.
    pub status: u8,
    /// The verdicts of the check-sats that were done, in order.
    pub verdicts: Verdicts,
}
