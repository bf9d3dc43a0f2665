//! Where bytes come from.

ghost use Rattle.std.specs.Prelude.{◌<◌, length};
ghost use Rattle.sc_io.specs.Moments.{SourceMoment};
ghost use Rattle.sc_io.specs.Reading.{ReadGives};

/// What a read gave.
#[derive(Clone, Copy, Debug, PartialEq, Eq)]
pub enum Got {
    /// So many bytes, at least one and at most the buffer's length.
    Bytes(usize),
    /// No byte is left.
    End,
    /// The source failed, and nothing was taken.
    Failed,
}

/// Bytes that are read from the front.
pub trait Source {
    /// The source as contracts see it: the bytes that are left, where it tells them, its count of
    /// faults, how often a call answered `Failed`, whether the last one did, and whether no call
    /// ever answers so.
    ghost moment: { Self → SourceMoment };

    /// Takes the next bytes that are left into the front of the buffer, which has room for one.
    ///
    /// The count of faults never falls, and `Failed` comes only where it rose in this call or
    /// stands at 2^64 - 1, and never from a source that never fails, whose count stays. `End` comes
    /// only where nothing is left, where the source tells what is. `End` and `Failed` take nothing.
    fn read(&mut self, buf: &mut [u8]) -> Got
        requires { 0 < length buf.old }
        ensures { ReadGives (moment self.old) (moment self.new) buf.new result };
}
