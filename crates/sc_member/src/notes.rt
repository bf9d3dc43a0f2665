//! Numbers noted beside numbers.

ghost use Rattle.std.specs.Prelude.{◌≡◌, ◌<◌, ◌+◌, ◌++◌, [], ◌∷◌, ℕ, true, length, slice_index_or, slice_set, IfOk, OnOk, OnErr};
ghost use Rattle.sc_member.specs.Notes as spec;
ghost use Rattle.sc_member.specs.Notes.{is_noted, is_either, Keeps};

use sc_terms::{Memory, Numbers};
use std::alloc::Global;
use std::marker::Model;

/// Lists of numbers, one for each number up to a last one. What is noted beside a greater number stands in the first list.
#[derive(Drop)]
pub(crate) struct Notes {
    lists: Vec<Numbers>,
}

impl Model for Notes {
    ghost use Rattle.std.specs.Prelude.{List, ℕ, ◌<◌, length};

    ghost Value = { List (List ℕ) };

    ghost view = { λ n. n.lists.items };

    ghost invariant = { λ n. 0 < length n.lists.items };
}

/// Adds a number to a list.
fn push_at(lists: &mut [Numbers], place: usize, number: u32) -> Result<(), Memory>
    requires { place < length lists.old }
    ensures ok { OnOk result (lists.new ≡ slice_set lists.old place (slice_index_or lists.old place [] ++ number ∷ [])) }
    ensures err { OnErr result (lists.new ≡ lists.old) }
{
    match lists[place].push(number) {
        Ok(()) => Ok(()),
        Err(_) => Err(Memory),
    }
}

impl Notes {
    /// Nothing noted, with a list for each number up to the last.
    pub(crate) fn new(alloc: Global, last: u32) -> Result<Notes, Memory>
        ensures { IfOk result (λ notes. length notes ≡ last + 1) }
    {
        let mut lists = Vec::new(alloc);
        for number in 0..=last {
            lists.push(Numbers::new(alloc))?;
        }
        Ok(Notes { lists })
    }

    /// The place of the list of a number.
    fn place_of(&self, number: u32) -> usize
        ensures place { result ≡ spec.place_of self.now number }
        ensures within { result < length self.now }
    {
        if (number as usize) < self.lists.len() {
            number as usize
        } else {
            0
        }
    }

    /// What is noted beside a number; beside a number past the last, what is noted beside all of those and 0.
    pub(crate) fn noted(&self, number: u32) -> &[u32]
        ensures { result.now ≡ spec.noted self.now number }
    {
        match self.lists.get(self.place_of(number)) {
            Some(list) => list.as_slice(),
            None => &[],
        }
    }

    /// Notes a value beside a number. The only error is want of memory, and what was noted still is.
    #[tactic(auto, using(crate::proofs::Noting::keeps_set, crate::proofs::Noting::noted_set))]
    pub(crate) fn note(&mut self, number: u32, value: u32) -> Result<(), Memory>
        ensures kept { Keeps self.old self.new }
        ensures noted { OnOk result (is_noted self.new number value ≡ true) }
    {
        let place = self.place_of(number);
        push_at(&mut self.lists, place, value)
    }

    /// Notes a value beside two numbers. The only error is want of memory, and what was noted still is.
    pub(crate) fn note_both(&mut self, first: u32, second: u32, value: u32) -> Result<(), Memory>
        ensures kept { Keeps self.old self.new }
        ensures noted { OnOk result ((n : ℕ) → is_either n first second ≡ true → is_noted self.new n value ≡ true) }
    {
        self.note(first, value)?;
        self.note(second, value)
    }
}
