//! A sink that keeps its bytes in memory.

ghost use Rattle.std.specs.Prelude.{◌≡◌, ◌≤◌, ◌<◌, length};
ghost use Rattle.sc_io.specs.Writing.{WriteGives};
ghost use Rattle.sc_io.specs.Memory.{fresh_output, output_moment, MayAnswer, after_write};

use crate::sink::{Sink, Wrote};
use std::alloc::Global;
use std::marker::Model;

/// Bytes in memory, with a list of the calls that fail and a largest piece.
///
/// Contracts see the bytes that were written, the list, the largest piece, the number of calls so
/// far, how many of them failed and how many wanted memory, and whether the last did.
#[derive(Drop)]
pub struct MemorySink {
    bytes: Vec<u8>,
    failing: Vec<u64>,
    most: usize,
    calls: u64,
    faults: u64,
    has_failed: bool,
    wants: u64,
    has_wanted: bool,
}

impl Model for MemorySink {
    ghost use Rattle.std.specs.Prelude.{◌≤◌};
    ghost use Rattle.sc_io.specs.Memory.{MemoryOutput};

    ghost Value = { MemoryOutput };

    ghost view = { λ s. record {
      written = s.bytes.items;
      failing = s.failing.items;
      most = s.most;
      calls = s.calls;
      faults = s.faults;
      has_failed = s.has_failed;
      wants = s.wants;
      has_wanted = s.has_wanted;
    } };

    ghost invariant = { λ s. 1 ≤ s.most };
}

impl MemorySink {
    /// A sink without bytes, of which a call takes at most `most`.
    ///
    /// The calls whose numbers, counted from 1, are in `failing` fail, and no others; with an empty
    /// list it never fails. The number of a call stands still at 2^64 - 1.
    pub fn new(alloc: Global, failing: Vec<u64>, most: usize) -> Self
        requires { 1 ≤ most }
        ensures { result ≡ fresh_output failing.items most }
    {
        MemorySink {
            bytes: Vec::new(alloc),
            failing,
            most,
            calls: 0,
            faults: 0,
            has_failed: false,
            wants: 0,
            has_wanted: false,
        }
    }

    /// The bytes that were written.
    pub fn bytes(&self) -> &[u8]
        ensures { result.now ≡ self.now.written }
    {
        &self.bytes
    }

    /// How many calls there were, those that took nothing among them; at most 2^64 - 1.
    pub fn calls(&self) -> u64
        ensures { result ≡ self.now.calls }
    {
        self.calls
    }

    /// How many calls failed, at most 2^64 - 1.
    pub fn faults(&self) -> u64
        ensures { result ≡ self.now.faults }
    {
        self.faults
    }

    /// How many calls wanted memory, at most 2^64 - 1.
    pub fn wants(&self) -> u64
        ensures { result ≡ self.now.wants }
    {
        self.wants
    }
}

impl Sink for MemorySink {
    ghost moment = { output_moment };

    /// Fails where the call's number is listed. Else it takes the least of the largest piece and
    /// the piece's length, or answers `Memory` where the buffer could not grow.
    fn write(&mut self, piece: &[u8]) -> Wrote
        requires { 0 < length piece.now }
        ensures gives { WriteGives (output_moment self.old) (output_moment self.new) piece.now result }
        ensures answer { MayAnswer self.old (length piece.now) result }
        ensures after { self.new ≡ after_write self.old piece.now result }
    {
        self.calls = self.calls.saturating_add(1);
        self.has_failed = self.failing.contains(&self.calls);
        if self.has_failed {
            self.has_wanted = false;
            self.faults = self.faults.saturating_add(1);
            return Wrote::Failed;
        }
        let count = self.most.min(piece.len());
        self.has_wanted = self.bytes.extend_from_slice(&piece[..count]).is_err();
        if self.has_wanted {
            self.wants = self.wants.saturating_add(1);
            return Wrote::Memory;
        }
        Wrote::Took(count)
    }
}
