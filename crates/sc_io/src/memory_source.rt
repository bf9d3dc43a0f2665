//! A source over bytes in memory.

ghost use Rattle.std.specs.Prelude.{◌≡◌, ◌≤◌, ◌<◌, ◌++◌, length, take, drop};
ghost use Rattle.sc_io.specs.Reading.{ReadGives};
ghost use Rattle.sc_io.specs.Memory.{fresh_input, input_moment, read_answer, given_by, after_read};

use crate::source::{Got, Source};
use std::marker::Model;

/// Bytes in memory, with a list of the calls that fail and a largest piece.
///
/// Contracts see the bytes that are left, the list, the largest piece, the number of calls so far,
/// how many of them failed, and whether the last did.
#[derive(Drop)]
pub struct MemorySource {
    bytes: Vec<u8>,
    at: usize,
    failing: Vec<u64>,
    most: usize,
    calls: u64,
    faults: u64,
    has_failed: bool,
}

impl Model for MemorySource {
    ghost use Rattle.std.specs.Prelude.{◌≤◌, length, drop};
    ghost use Rattle.sc_io.specs.Memory.{MemoryInput};

    ghost Value = { MemoryInput };

    ghost view = { λ s. record {
      left = drop s.at s.bytes.items;
      failing = s.failing.items;
      most = s.most;
      calls = s.calls;
      faults = s.faults;
      has_failed = s.has_failed;
    } };

    ghost invariant = { λ s. (s.at ≤ length s.bytes.items) × (1 ≤ s.most) };
}

impl MemorySource {
    /// A source of these bytes, of which a call gives at most `most`.
    ///
    /// The calls whose numbers, counted from 1, are in `failing` fail, and no others; with an empty
    /// list it never fails. The number of a call stands still at 2^64 - 1.
    pub fn new(bytes: Vec<u8>, failing: Vec<u64>, most: usize) -> Self
        requires { 1 ≤ most }
        ensures { result ≡ fresh_input bytes.items failing.items most }
    {
        MemorySource {
            bytes,
            at: 0,
            failing,
            most,
            calls: 0,
            faults: 0,
            has_failed: false,
        }
    }

    /// The bytes that are left.
    pub fn left(&self) -> &[u8]
        ensures { result.now ≡ self.now.left }
    {
        &self.bytes[self.at..]
    }

    /// How many calls there were, those that failed among them; at most 2^64 - 1.
    pub fn calls(&self) -> u64
        ensures { result ≡ self.now.calls }
    {
        self.calls
    }

    /// How many calls failed, at most 2^64 - 1.
    pub fn faults(&self) -> u64
        ensures { result ≡ self.now.faults }
    {
        self.faults
    }
}

impl Source for MemorySource {
    ghost moment = { input_moment };

    /// Fails where the call's number is listed. Else it gives the least of the largest piece, the
    /// buffer's length and the number of bytes left, or `End` where none is left. The rest of the
    /// buffer stays as it was.
    fn read(&mut self, buf: &mut [u8]) -> Got
        requires { 0 < length buf.old }
        ensures gives { ReadGives (input_moment self.old) (input_moment self.new) buf.new result }
        ensures answer { result ≡ read_answer self.old (length buf.old) }
        ensures after { self.new ≡ after_read self.old result }
        ensures filled { buf.new ≡ take (given_by result) self.old.left ++ drop (given_by result) buf.old }
    {
        self.calls = self.calls.saturating_add(1);
        self.has_failed = self.failing.contains(&self.calls);
        if self.has_failed {
            self.faults = self.faults.saturating_add(1);
            return Got::Failed;
        }
        let left = self.bytes.len() - self.at;
        if left == 0 {
            return Got::End;
        }
        let count = self.most.min(buf.len()).min(left);
        buf[..count].copy_from_slice(&self.bytes[self.at..self.at + count]);
        self.at += count;
        Got::Bytes(count)
    }
}

#[cfg(test)]
mod tests {
    use super::*;
    use std::test::Fail;

    // Of ten bytes, at most three a call: 3, 3, 3 and 1, and then the end.
    #[test]
    fn fails_at_the_listed_call(rt: HostRuntime) -> Result<(), Fail> {
        let cases = [
            (1, "0123456789", Got::Failed),
            (2, "3456789", Got::Failed),
            (3, "6789", Got::Failed),
            (4, "9", Got::Failed),
            (5, "", Got::Failed),
            (6, "", Got::End),
        ];
        for (failing, left, want) in cases {
            let bytes = b"0123456789".to_vec(rt.alloc())?;
            let mut source = MemorySource::new(bytes, vec![in rt.alloc(); failing]?, 3);
            let answer = read_on(&mut source);
            assert_eq!(rt; answer, want, "failing at {failing}");
            assert_eq!(rt; source.left(), left.as_bytes(), "failing at {failing}");
        }
        Ok(())
    }

    // The first answer without bytes of six reads.
    fn read_on(source: &mut MemorySource) -> Got {
        let mut buffer = [0; 4];
        for _ in 0..6 {
            match source.read(&mut buffer) {
                Got::Bytes(_) => {}
                other => return other,
            }
        }
        Got::Bytes(0)
    }
}
