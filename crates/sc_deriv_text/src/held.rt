//! Bytes that are held back, so that they reach a sink together.

ghost use Rattle.std.specs.Prelude.{◌≡◌, ◌<◌, [], length, take};
ghost use Rattle.sc_io.specs.Writing.{WriteGives};
ghost use Rattle.sc_deriv_text.specs.Held.{held_moment};

use arrayvec::ArrayVec;
use sc_io::{Sink, Wrote};
use std::marker::Model;

/// Bytes that are held back, at most 1,024. It takes no memory: as a sink it answers `Memory` where a piece does not fit whole.
#[derive(Drop)]
pub struct Held {
    bytes: ArrayVec<u8, 1024>,
    wants: u64,
    has_wanted: bool,
}

impl Model for Held {
    ghost use Rattle.sc_deriv_text.specs.Held.{HeldBytes};

    ghost Value = { HeldBytes };

    ghost view = { λ s. record { held = s.bytes.items; wants = s.wants; has_wanted = s.has_wanted } };
}

impl Held {
    /// Nothing is held.
    pub fn new() -> Held
        ensures { result.held ≡ [] }
    {
        Held {
            bytes: ArrayVec::new(),
            wants: 0,
            has_wanted: false,
        }
    }

    /// What is held.
    pub fn bytes(&self) -> &[u8]
        ensures { result.now ≡ self.now.held }
    {
        self.bytes.as_slice()
    }

    /// Keeps the first bytes, so many, and drops the others.
    pub fn truncate(&mut self, count: usize)
        ensures { self.new.held ≡ take count self.old.held }
    {
        self.bytes.truncate(count);
    }
}

impl Sink for Held {
    ghost moment = { held_moment };

    fn write(&mut self, piece: &[u8]) -> Wrote
        requires { 0 < length piece.now }
        ensures { WriteGives (held_moment self.old) (held_moment self.new) piece.now result }
    {
        self.has_wanted = self.bytes.try_extend_from_slice(piece).is_err();
        if self.has_wanted {
            self.wants = self.wants.saturating_add(1);
            return Wrote::Memory;
        }
        Wrote::Took(piece.len())
    }
}
