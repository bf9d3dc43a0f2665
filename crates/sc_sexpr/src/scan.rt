//! A pass over the bytes that a splitter holds.

ghost use Rattle.std.specs.Prelude.{◌≡◌, ◌+◌, ◌-◌, ◌<◌, ◌≤◌, ◌^◌, ℕ, List, false, if◌then◌else◌, length, slice_index};
ghost use Rattle.sc_sexpr.specs.Passes.{IsPlaced, IsResting, IsBetween, Finds, Skips, ends_before, found_past, scan_from, text_of, moved};
ghost use Rattle.sc_sexpr.specs.Moves.{is_idle, move_of};
ghost use Rattle.sc_sexpr.specs.Scans.{text_after};

use crate::item::Fault;
use crate::state::{Move, State};

/// How far the bytes have been read.
#[derive(Clone, Copy, Debug, PartialEq, Eq)]
pub(crate) struct Pass {
    pub state: State,
    /// Where the item at hand begins.
    pub from: usize,
    /// Where the next byte stands.
    pub at: usize,
    /// How many more bytes may be read.
    pub room: u64,
}

/// What a pass shows.
#[derive(Clone, Copy, Debug, PartialEq, Eq)]
pub(crate) enum Found {
    /// All bytes are read.
    Waits(Pass),
    /// An item, which stands before the place of the pass, and its line.
    Top(Pass, u64),
    /// A byte past the limit, with its line.
    Full(u64),
    Bad(Fault),
}

impl Pass {
    /// The item at hand ends here.
    #[inline(always)]
    fn ended(self) -> Found
        ensures { result ≡ ends_before self }
    {
        Found::Top(
            Pass {
                state: self.state.closed(),
                ..self
            },
            self.state.item_line,
        )
    }

    /// What a byte past the limit shows: an item that ends before it comes first.
    fn full(self, byte: u8) -> Found
        requires { self.state.line + 1 < 2 ^ 64 }
        ensures { result ≡ found_past (move_of self.state byte) self }
    {
        match self.state.step(byte) {
            Move::Before => self.ended(),
            _ => Found::Full(self.state.here()),
        }
    }

    /// The same place where so many bytes are gone from the front.
    #[inline(always)]
    pub(crate) fn moved(self, count: usize) -> Pass
        requires at { count ≤ self.at }
        ensures { result ≡ moved self count }
    {
        Pass {
            from: self.from.saturating_sub(count),
            at: self.at - count,
            ..self
        }
    }

    /// Behind the next byte.
    #[inline(always)]
    fn passed(self, state: State) -> Pass
        requires order { self.from ≤ self.at }
        requires within { self.at + 1 < 2 ^ 64 }
        requires some { 0 < self.room }
        ensures at { result.at ≡ self.at + 1 }
        ensures room { result.room + 1 ≡ self.room }
        ensures state { result.state ≡ state }
        ensures order { result.from ≤ result.at }
        ensures rests { IsResting result }
        ensures span { result.at - result.from + result.room ≤ self.at - self.from + self.room }
        ensures grows { is_idle state ≡ false → result.from ≡ self.from }
        ensures text { (bytes : List ℕ) → self.at < length bytes → text_of bytes result ≡ text_after state (text_of bytes self) (slice_index bytes self.at) }
    {
        let at = self.at + 1;
        Pass {
            state,
            from: if state.is_idle() { at } else { self.from },
            at,
            room: self.room - 1,
        }
    }
}

/// A count, or as many as there is room for.
#[inline(always)]
fn lesser(room: u64, count: usize) -> usize
    ensures room { result ≤ room }
    ensures count { result ≤ count }
{
    if count as u64 <= room {
        count
    } else {
        room as usize
    }
}

impl Pass {
    /// Where the item at hand begins, in the same state before another byte.
    #[inline(always)]
    fn from_before(self, at: usize) -> usize
        ensures { result ≡ (if is_idle self.state then at else self.from) }
    {
        if self.state.is_idle() { at } else { self.from }
    }

    /// Behind the bytes that leave the state as it is, or as many of them as may be read.
    #[inline(always)]
    fn skipped(self, bytes: &[u8]) -> Pass
        requires placed { IsPlaced bytes.now self }
        requires rests { IsResting self }
        ensures { Skips bytes.now self result }
    {
        let (_, rest) = bytes.split_at(self.at);
        let count = lesser(self.room, self.state.span(rest));
        let at = self.at + count;
        Pass {
            state: self.state,
            from: self.from_before(at),
            at,
            room: self.room - count as u64,
        }
    }
}

impl Pass {
    /// Behind the bytes from here on that leave the state as it is, and those with which the item at
    /// hand goes on, where there is one.
    #[inline(always)]
    fn onward(self, bytes: &[u8]) -> Pass
        requires placed { IsPlaced bytes.now self }
        requires rests { IsResting self }
        requires lines { self.state.line + self.room + 1 < 2 ^ 64 }
        ensures { Skips bytes.now self result }
    {
        if self.state.is_idle() {
            self.skipped(bytes)
        } else {
            self.along(bytes)
        }
    }

    /// Behind the bytes from here on that leave the state as it is, or with which the list at hand
    /// goes on.
    #[inline(always)]
    fn along(self, bytes: &[u8]) -> Pass
        requires placed { IsPlaced bytes.now self }
        requires busy { is_idle self.state ≡ false }
        requires lines { self.state.line + self.room + 1 < 2 ^ 64 }
        ensures { Skips bytes.now self result }
    {
        if self.state.is_between() {
            self.glide(bytes)
        } else {
            self.skipped(bytes)
        }
    }

    /// Behind the parentheses, the white space and the simple symbols and numerals that come next in
    /// the list at hand, as far as their ends can be seen.
    fn glide(self, bytes: &[u8]) -> Pass
        requires placed { IsPlaced bytes.now self }
        requires between { IsBetween self.state }
        requires lines { self.state.line + self.room + 1 < 2 ^ 64 }
        ensures { Skips bytes.now self result }
    {
        let (_, unread) = bytes.split_at(self.at);
        let (rest, _) = unread.split_at(lesser(self.room, unread.len()));
        let mut state = self.state;
        let mut count = 0;
        while let Some((next, behind)) = state.glides(rest, count) {
            state = next;
            count = behind;
        }
        Pass {
            state,
            from: self.from,
            at: self.at + count,
            room: self.room - count as u64,
        }
    }
}

/// The first item from here on.
pub(crate) fn scan(pass: Pass, bytes: &[u8]) -> Found
    requires placed { IsPlaced bytes.now pass }
    requires rests { IsResting pass }
    requires lines { pass.state.line + pass.room + 1 < 2 ^ 64 }
    ensures { Finds bytes.now pass result (scan_from bytes.now pass) }
{
    let mut pass = pass;
    while pass.at < bytes.len() {
        if pass.room == 0 {
            return pass.full(bytes[pass.at]);
        }
        let state = pass.state;
        match state.step(bytes[pass.at]) {
            Move::Go(next) => {
                let behind = pass.passed(next);
                pass = behind.onward(bytes);
            }
            Move::Done(next) => {
                return Found::Top(
                    Pass {
                        state: next,
                        from: pass.from,
                        at: pass.at + 1,
                        room: pass.room - 1,
                    },
                    state.item_line,
                );
            }
            Move::Before => return pass.ended(),
            Move::Fail(fault) => return Found::Bad(fault),
        }
    }
    Found::Waits(pass)
}
