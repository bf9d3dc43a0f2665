//! How solving ends.

/// How solving ended.
#[derive(Clone, Copy, Debug, PartialEq, Eq)]
pub enum Ending {
    /// The responses were written, and none is an error.
    Done,
    /// The responses were written, and the last is an error.
    Error,
    /// The source failed.
    ReadFault,
    /// The sink failed.
    WriteFault,
    /// There was no memory, here or in the sink.
    Memory,
}
