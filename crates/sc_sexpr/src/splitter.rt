//! The splitter.

ghost use Rattle.std.specs.Prelude.{◌≡◌, ◌+◌, ◌<◌, ◌≤◌, ◌^◌, ℕ, List, [], true, false, drop, Some, None, IsSome, OnOk, OnErr, vec_len};
ghost use Rattle.sc_sexpr.specs.View.{View, keeping, fresh_view, fed, widened, stopped, at_end, waits, shows, scan_of, answer, held_at_most};
ghost use Rattle.sc_sexpr.specs.Moves.{ending_of};
ghost use Rattle.sc_sexpr.specs.Laws.{reading_of, behind, IsGiven, StandsBetween, Works};

use crate::item::{Fault, Item, Last};
use crate::scan::{Found, Pass, scan};
use crate::state::{Ending, State};
use std::alloc::Global;
use std::marker::Model;

/// Memory was refused.
#[derive(Clone, Copy, Debug, PartialEq, Eq)]
pub struct Memory;

/// Splits an input that comes in pieces into its top items.
///
/// Feed it a piece, ask for items until it answers [`Item::More`], and so on; then say that the
/// input has ended, and ask until it answers [`Item::End`] or [`Item::Bad`].
#[derive(Drop)]
pub struct Splitter {
    /// The bytes from the item at hand on.
    bytes: Vec<u8>,
    pass: Pass,
    /// Whether the item at hand was given.
    given: bool,
    /// Whether no more bytes come.
    last: bool,
    /// The end or the fault that was found.
    over: Option<Last>,
    limit: u64,
    granted: u64,
    /// How many bytes the last piece has.
    piece: usize,
    /// How many bytes were not yet read when it came.
    waiting: usize,
}

impl Model for Splitter {
    ghost use Rattle.sc_sexpr.specs.View.{View, Holds, text_at_hand, given_of};
    ghost use Rattle.std.specs.Prelude.{drop, length};

    ghost Value = { View };

    ghost view = { λ s. record {
      state = s.pass.state;
      text = text_at_hand s.bytes.items s.pass s.given;
      unread = drop s.pass.at s.bytes.items;
      room = s.pass.room;
      limit = s.limit;
      granted = s.granted;
      last = s.last;
      given = given_of s.bytes.items s.pass s.given;
      over = s.over;
      piece = s.piece;
      waiting = s.waiting;
      kept = length s.bytes.items;
    } };

    ghost invariant = { λ s. Holds s.bytes.items s.pass s.given s.piece s.waiting s.granted };
}

/// Removes the first bytes.
fn drop_front(bytes: &mut Vec<u8>, count: usize)
    requires { count ≤ vec_len bytes.old }
    ensures { bytes.new.items ≡ drop count bytes.old.items }
{
    if count == 0 {
        return;
    }
    let rest = bytes.len() - count;
    bytes.rotate_left(count);
    bytes.truncate(rest);
}

/// How many of the bytes before an item to remove, where so many behind it are not read: all, but where more bytes would have to be moved than go.
fn spare(before: usize, unread: usize) -> usize
    ensures within { result ≤ before }
    ensures enough { before ≤ result + unread }
{
    if unread <= before { before } else { 0 }
}

impl Splitter {
    /// A splitter for an input of at most `limit` bytes. It takes no memory yet.
    ///
    /// The limits that one splitter is given, those of [`Splitter::go_on`] among them, are together
    /// below 2^63.
    pub fn new(alloc: Global, limit: u64) -> Splitter
        requires { limit < 2 ^ 63 }
        ensures { result ≡ fresh_view limit }
    {
        Splitter {
            bytes: Vec::new(alloc),
            pass: Pass {
                state: State::START,
                from: 0,
                at: 0,
                room: limit,
            },
            given: false,
            last: false,
            over: None,
            limit,
            granted: limit,
            piece: 0,
            waiting: 0,
        }
    }

    /// Takes the next piece of the input, which may be empty. The item given last stays. An `Err`
    /// changes nothing.
    pub fn feed(&mut self, piece: &[u8]) -> Result<(), Memory>
        requires { self.old.last ≡ false }
        ensures ok { OnOk result (self.new ≡ keeping self.new.kept (fed self.old piece.now)) }
        ensures err { OnErr result (self.new ≡ self.old) }
    {
        let unread = self.bytes.len() - self.pass.at;
        if self.bytes.extend_from_slice(piece).is_err() {
            return Err(Memory);
        }
        self.piece = piece.len();
        self.waiting = unread;
        let spare = spare(self.pass.from, unread);
        drop_front(&mut self.bytes, spare);
        self.pass = self.pass.moved(spare);
        Ok(())
    }

    /// Says that the input has ended: no piece comes after this.
    pub fn finish(&mut self)
        ensures { self.new ≡ record self.old { last = true } }
    {
        self.last = true;
    }

    /// From the end of the item given last on `limit` more bytes may come, in place of what was
    /// left of the old limit. Bytes behind this item that were fed before count too.
    pub fn go_on(&mut self, limit: u64)
        requires top { IsSome self.old.given }
        requires fits { self.old.granted + limit < 2 ^ 63 }
        ensures { self.new ≡ widened self.old limit }
    {
        self.pass.room = limit;
        self.limit = limit;
        self.granted += limit;
    }

    /// The bytes of the item that was given last.
    pub fn item(&self) -> &[u8]
        requires { IsSome self.now.given }
        ensures { Some result.now ≡ self.now.given }
    {
        &self.bytes[self.pass.from..self.pass.at]
    }

    /// How many bytes are kept: where [`Item::More`] was the last answer when the last piece came,
    /// no more than this piece and the item given last, or else the unfinished one, have.
    pub fn held(&self) -> u64
        ensures kept { result ≡ self.now.kept }
        ensures bound { result ≤ held_at_most self.now }
    {
        self.bytes.len() as u64
    }

    /// Forgets the item that was given last.
    fn forget(&mut self)
        ensures { self.new ≡ keeping self.new.kept (record self.old { given = None }) }
    {
        if !self.given {
            return;
        }
        self.given = false;
        let more = self
            .bytes
            .len()
            .saturating_sub(self.piece)
            .saturating_sub(self.waiting);
        if self.waiting < more {
            drop_front(&mut self.bytes, self.pass.at);
            self.pass = self.pass.moved(self.pass.at);
        } else {
            self.pass.from = self.pass.at;
        }
    }

    fn stop(&mut self, end: Last) -> Item
        ensures result { result ≡ (stopped self.old end).item }
        ensures state { self.new ≡ keeping self.new.kept (stopped self.old end).view }
    {
        self.forget();
        self.over = Some(end);
        end.item()
    }

    /// What the end of the input does.
    fn at_end(&mut self) -> Item
        requires { self.old.given ≡ None }
        ensures result { result ≡ (at_end self.old (ending_of self.old.state)).item }
        ensures state { self.new ≡ keeping self.new.kept (at_end self.old (ending_of self.old.state)).view }
        ensures given { IsGiven result self.new }
        ensures last { self.new.last ≡ self.old.last }
        ensures granted { self.new.granted ≡ self.old.granted }
    {
        match self.pass.state.ending() {
            Ending::Nothing => self.stop(Last::End),
            Ending::Whole => {
                let line = self.pass.state.item_line;
                self.pass.state = self.pass.state.closed();
                self.given = true;
                Item::Top { line }
            }
            Ending::Bad(fault) => self.stop(Last::Bad(fault)),
        }
    }

    /// What the end of the bytes does, where all are read.
    fn wait(&mut self) -> Item
        requires { self.old.given ≡ None }
        ensures result { result ≡ (waits self.old).item }
        ensures state { self.new ≡ keeping self.new.kept (waits self.old).view }
        ensures given { IsGiven result self.new }
        ensures last { self.new.last ≡ self.old.last }
        ensures granted { self.new.granted ≡ self.old.granted }
    {
        if self.last { self.at_end() } else { Item::More }
    }

    /// The next item, where no end was found.
    fn look(&mut self) -> Item
        requires { self.old.given ≡ None }
        ensures result { result ≡ (shows self.old (scan_of self.old)).item }
        ensures state { self.new ≡ keeping self.new.kept (shows self.old (scan_of self.old)).view }
        ensures given { IsGiven result self.new }
        ensures last { self.new.last ≡ self.old.last }
        ensures granted { self.new.granted ≡ self.old.granted }
    {
        let number = self.limit;
        match scan(self.pass, self.bytes.as_slice()) {
            Found::Waits(pass) => {
                self.pass = pass;
                self.wait()
            }
            Found::Top(pass, line) => {
                self.pass = pass;
                self.given = true;
                Item::Top { line }
            }
            Found::Full(line) => self.stop(Last::Bad(Fault::Limit { line, number })),
            Found::Bad(fault) => self.stop(Last::Bad(fault)),
        }
    }

    /// The next item of the input, the end or the first fault, or nothing yet. [`Item::End`] and
    /// [`Item::Bad`] are answered again from then on.
    pub fn next_item(&mut self) -> Item
        // The answers are the items of all the bytes, and then the end, whatever bytes come.
        ensures reading { (more : List ℕ) → (self.old.last ≡ true → more ≡ []) → reading_of self.old more ≡ behind result self.new more }
        ensures more { result ≡ Item.More → self.old.last ≡ false }
        // All bytes are looked at before more are asked for.
        ensures read { result ≡ Item.More → self.new.unread ≡ [] }
        // An item is one for a reader of trees, and the splitter stands behind it.
        ensures given { IsGiven result self.new }
        ensures between { StandsBetween result self.new }
        // With each item there is less to do.
        ensures work { Works result self.old self.new }
        ensures last { self.new.last ≡ self.old.last }
        ensures granted { self.new.granted ≡ self.old.granted }

        // Which answer it is.
        ensures result { result ≡ (answer self.old).item }
        ensures state { self.new ≡ keeping self.new.kept (answer self.old).view }
    {
        if let Some(end) = self.over {
            return end.item();
        }
        self.forget();
        self.look()
    }
}
