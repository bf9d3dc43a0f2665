//! Where bytes go.

ghost use Rattle.std.specs.Prelude.{◌<◌, length};
ghost use Rattle.sc_io.specs.Moments.{SinkMoment};
ghost use Rattle.sc_io.specs.Writing.{WriteGives};

/// What became of a piece.
#[derive(Clone, Copy, Debug, PartialEq, Eq)]
pub enum Wrote {
    /// So many bytes were taken, at least one and at most the piece's length.
    Took(usize),
    /// The sink failed, and nothing was taken.
    Failed,
    /// The sink lacked memory of its own, and nothing was taken. That is no fault.
    Memory,
}

/// Bytes that are written at the end.
pub trait Sink {
    /// The sink as contracts see it: the bytes that were written, where it tells them, its count
    /// of faults, how often a call answered `Failed` and how often one answered `Memory`, whether
    /// the last one did, and whether no call ever answers so.
    ghost moment: { Self → SinkMoment };

    /// Appends the first bytes of the piece, which has at least one.
    ///
    /// The count of faults never falls, and `Failed` comes only where it rose in this call or
    /// stands at 2^64 - 1, and never from a sink that never fails, whose count stays. `Memory`
    /// leaves the count as it was, and never comes from a sink that never lacks memory. Both append
    /// nothing.
    fn write(&mut self, piece: &[u8]) -> Wrote
        requires { 0 < length piece.now }
        ensures { WriteGives (moment self.old) (moment self.new) piece.now result };
}
