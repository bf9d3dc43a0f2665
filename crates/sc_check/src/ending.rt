//! How a check ends.

/// How a check ended.
#[derive(Clone, Copy, Debug, PartialEq, Eq)]
pub enum Ending {
    /// The lines were written, and none is a refusal or an error.
    Done,
    /// The lines were written, and the last is an error.
    Error,
    /// The source failed.
    ReadFault,
    /// The sink failed.
    WriteFault,
    /// There was no memory, here or in the sink.
    Memory,
    /// The lines were written; some derivation is refused, and none is an error.
    Refused,
    /// No derivation follows the script, and there is no error. Nothing was written.
    Nothing,
}
