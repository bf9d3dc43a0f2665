//! The edge to the outside: std's readers and writers.

ghost use Rattle.std.specs.Prelude.{◌≡◌, ◌<◌, length};
ghost use Rattle.sc_io.specs.Edge.{reader_moment, writer_moment, fresh_source, fresh_sink};

use crate::sink::{Sink, Wrote};
use crate::source::{Got, Source};
use std::io::{Read, Write};

/// A reader of std. Each error that it gives is a fault, an interrupted read
/// (`ErrorKind::Interrupted`) too, and the count of them stops at 2^64 - 1.
///
/// This is a trusted edge. No clause of [`Read`] tells when a read gives an error, so that
/// `Failed` comes exactly where the one read of the reader did is shown by a test.
#[derive(Drop)]
pub struct ReaderSource<R> {
    reader: R,
    faults: u64,
    has_failed: bool,
}

impl<R: Read> ReaderSource<R> {
    /// A source over the reader, that has not failed. What is left is what the reader tells.
    pub fn new(reader: R) -> Self
        ensures { reader_moment R.remaining result ≡ fresh_source (R.remaining reader) }
    {
        ReaderSource {
            reader,
            faults: 0,
            has_failed: false,
        }
    }
}

impl<R: Read> Source for ReaderSource<R> {
    ghost moment = { reader_moment R.remaining };

    fn read(&mut self, buf: &mut [u8]) -> Got {
        match self.reader.read(buf) {
            Ok(0) => {
                self.has_failed = false;
                Got::End
            }
            Ok(count) => {
                self.has_failed = false;
                Got::Bytes(count)
            }
            Err(_) => {
                self.faults = self.faults.saturating_add(1);
                self.has_failed = true;
                Got::Failed
            }
        }
    }
}

/// A writer of std. Each error that it gives is a fault, and so is taking nothing of a piece; the
/// count of them stops at 2^64 - 1. It never lacks memory.
///
/// This is a trusted edge. No clause of [`Write`] tells when a write gives an error, so that
/// `Failed` comes exactly where the one write of the writer took nothing is shown by a test.
#[derive(Drop)]
pub struct WriterSink<W> {
    writer: W,
    faults: u64,
    has_failed: bool,
}

impl<W: Write> WriterSink<W> {
    /// A sink over the writer, that has not failed. What was written is what the writer tells.
    pub fn new(writer: W) -> Self
        ensures { writer_moment W.contents result ≡ fresh_sink (W.contents writer) }
    {
        WriterSink {
            writer,
            faults: 0,
            has_failed: false,
        }
    }
}

impl<W: Write> Sink for WriterSink<W> {
    ghost moment = { writer_moment W.contents };

    fn write(&mut self, piece: &[u8]) -> Wrote {
        match self.writer.write(piece) {
            Ok(0) | Err(_) => {
                self.faults = self.faults.saturating_add(1);
                self.has_failed = true;
                Wrote::Failed
            }
            Ok(count) => {
                self.has_failed = false;
                Wrote::Took(count)
            }
        }
    }
}

#[cfg(test)]
mod tests {
    use super::*;
    use crate::put::{PutError, put_all};
    use std::io;
    use std::test::Fail;

    // Gives a byte a call, and errs in its second.
    #[derive(Drop)]
    struct Faulty {
        calls: u8,
    }

    impl Read for Faulty {
        fn read(&mut self, buf: &mut [u8]) -> io::Result<usize> {
            self.calls = self.calls.saturating_add(1);
            match (self.calls, buf) {
                (2, _) => Err(io::Error::other("faulty")),
                (1 | 3, [first, ..]) => {
                    *first = b'0' + self.calls.min(9);
                    Ok(1)
                }
                _ => Ok(0),
            }
        }
    }

    // Each answer of the reader is handed on once, and a fault takes nothing.
    #[test]
    fn hands_on_what_a_reader_gives(rt: HostRuntime) {
        let mut source = ReaderSource::new(Faulty { calls: 0 });
        let mut buffer = [0; 4];
        for (want, first) in [
            (Got::Bytes(1), b'1'),
            (Got::Failed, b'1'),
            (Got::Bytes(1), b'3'),
            (Got::End, b'3'),
        ] {
            assert_eq!(rt; source.read(&mut buffer), want);
            assert_eq!(rt; buffer[0], first);
        }
    }

    // Takes two bytes a call, errs in its third and takes nothing in its fifth.
    #[derive(Drop)]
    struct Choosy {
        calls: u8,
        bytes: Vec<u8>,
    }

    impl Write for Choosy {
        fn write(&mut self, buf: &[u8]) -> io::Result<usize> {
            self.calls = self.calls.saturating_add(1);
            match self.calls {
                3 => Err(io::Error::other("choosy")),
                5 => Ok(0),
                _ => {
                    let count = buf.len().min(2);
                    self.bytes.extend_from_slice(&buf[..count])?;
                    Ok(count)
                }
            }
        }

        fn flush(&mut self) -> io::Result<()> {
            Ok(())
        }
    }

    // An error and a write of nothing are faults, after which `put_all` writes no more.
    #[test]
    fn stops_where_a_writer_takes_nothing(rt: HostRuntime) {
        let mut writer = Choosy {
            calls: 0,
            bytes: Vec::new(rt.alloc()),
        };
        let mut sink = WriterSink::new(&mut writer);
        for (piece, want) in [
            ("abc", Ok(())),
            ("def", Err(PutError::Sink)),
            ("ghij", Err(PutError::Sink)),
            ("k", Ok(())),
        ] {
            assert_eq!(rt; put_all(&mut sink, piece.as_bytes()), want, "at {piece}");
        }
        assert_eq!(rt; writer.bytes.as_slice(), b"abcghk".as_slice());
        assert_eq!(rt; writer.calls, 6);
    }
}
