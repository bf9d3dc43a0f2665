//! The column of an element: whether it is in each set term, by what a path says, what follows, and guesses. What is guessed here is only tried, so a wrong guess costs time alone.

use crate::joins::{Join, Place, join_of};
use crate::seen::Seen;
use sc_terms::{Memory, Problem, SetTerm};
use std::alloc::Global;

/// How often guesses are taken back at one element before it is left to the search.
const MOST_RETURNS: u32 = 64;

/// A guess, and how far the column had come before it.
#[derive(Clone, Copy)]
struct Guess {
    place: Place,
    known: usize,
    pending: usize,
    settled: usize,
}

/// Whether an element is in each set term, as far as is known or guessed.
#[derive(Drop)]
pub(crate) struct Column {
    element: u32,
    /// By the set terms' numbers less 1.
    entries: Vec<Option<bool>>,
    /// The set terms that have an entry, in the order in which they got it.
    known: Vec<u32>,
    /// How many of them were followed up.
    followed: usize,
    /// Set terms that may need a guess.
    pending: Vec<u32>,
    /// How many of them need none any more.
    settled: usize,
    guesses: Vec<Guess>,
    /// Whether two entries contradict each other.
    clash: bool,
    /// The first set of one that the element was to be in, though the path does not say whether it equals the set's.
    single: Option<u32>,
}

impl Column {
    /// A column in which nothing is known.
    pub(crate) fn new(alloc: Global, problem: &Problem) -> Result<Column, Memory> {
        let mut entries = Vec::new(alloc);
        for _ in 0..problem.counts().sets {
            entries.push(None)?;
        }
        Ok(Column {
            element: 0,
            entries,
            known: Vec::new(alloc),
            followed: 0,
            pending: Vec::new(alloc),
            settled: 0,
            guesses: Vec::new(alloc),
            clash: false,
            single: None,
        })
    }

    /// Begins the column of an element, the least of its class, of which nothing is known yet.
    pub(crate) fn begin(&mut self, element: u32) {
        self.cut_back(0);
        self.element = element;
        self.followed = 0;
        self.pending.truncate(0);
        self.settled = 0;
        self.guesses.truncate(0);
        self.clash = false;
        self.single = None;
    }

    /// The first set of one that the element was to be in, though the path does not say whether it equals the set's.
    pub(crate) fn single(&self) -> Option<u32> {
        self.single
    }

    /// The set terms that have an entry, in the order in which they got it.
    pub(crate) fn known(&self) -> &[u32] {
        self.known.as_slice()
    }

    /// The entry of a set term.
    pub(crate) fn entry(&self, set: u32) -> Option<bool> {
        if set == 0 {
            return None;
        }
        match self.entries.get(set as usize - 1) {
            Some(entry) => *entry,
            None => None,
        }
    }

    /// Gives a set term this entry, or none.
    fn write(&mut self, set: u32, inside: Option<bool>) {
        if set == 0 {
            return;
        }
        if let Some(entry) = self.entries.get_mut(set as usize - 1) {
            *entry = inside;
        }
    }

    /// Keeps the first entries alone, so many as this count.
    fn cut_back(&mut self, count: usize) {
        for _ in count..self.known.len() {
            if let Some(set) = self.known.pop() {
                self.write(set, None);
            }
        }
    }

    /// Whether the element is in a set term, where that is known: no element is in the empty set, and different classes of elements are kept apart.
    fn is_inside(&self, seen: Seen<'_>, set: u32) -> Option<bool> {
        match seen.problem.find_set(set) {
            Some(SetTerm::Empty(_)) => Some(false),
            Some(SetTerm::Single(element)) => Some(seen.said.label(*element) == self.element),
            _ => self.entry(set),
        }
    }

    /// Whether this holds of the element, where that is known.
    fn holds(&self, seen: Seen<'_>, place: Place) -> Option<bool> {
        let inside = self.is_inside(seen, place.set)?;
        Some(inside == place.inside)
    }

    /// Notes that a clash came at a set, if it is a set of one of which the path says nothing.
    fn note_single(&mut self, seen: Seen<'_>, set: u32) {
        if self.single.is_some() || self.entry(set).is_some() {
            return;
        }
        if let Some(SetTerm::Single(_)) = seen.problem.find_set(set) {
            self.single = Some(set);
        }
    }

    /// Notes that this holds of the element.
    pub(crate) fn put(&mut self, seen: Seen<'_>, place: Place) -> Result<(), Memory> {
        if self.holds(seen, place) == Some(false) {
            self.clash = true;
            self.note_single(seen, place.set);
            return Ok(());
        }
        if self.entry(place.set).is_none() {
            self.write(place.set, Some(place.inside));
            self.known.push(place.set)?;
        }
        Ok(())
    }

    /// Notes that this does not hold of the element.
    fn put_not(&mut self, seen: Seen<'_>, place: Place) -> Result<(), Memory> {
        let other = Place {
            set: place.set,
            inside: !place.inside,
        };
        self.put(seen, other)
    }

    /// Notes what follows at a term of two sets.
    fn follow_join(&mut self, seen: Seen<'_>, join: Join) -> Result<(), Memory> {
        let first = self.holds(seen, join.first);
        let second = self.holds(seen, join.second);
        if first == Some(true) || second == Some(true) {
            return self.put(seen, join.whole);
        }
        if first == Some(false) && second == Some(false) {
            return self.put_not(seen, join.whole);
        }
        match self.holds(seen, join.whole) {
            Some(false) => {
                self.put_not(seen, join.first)?;
                self.put_not(seen, join.second)
            }
            Some(true) if first == Some(false) => self.put(seen, join.second),
            Some(true) if second == Some(false) => self.put(seen, join.first),
            _ => Ok(()),
        }
    }

    /// Notes what follows for a set term from those that it is said to equal.
    fn follow_equals(&mut self, seen: Seen<'_>, set: u32) -> Result<(), Memory> {
        if self.entry(set).is_some() {
            return Ok(());
        }
        for other in seen.said.equal_sets.of(set) {
            if let Some(inside) = self.is_inside(seen, *other) {
                return self.put(seen, Place { set, inside });
            }
        }
        Ok(())
    }

    /// Notes what follows at a set term; where a guess may be needed there, the term is pending.
    fn follow_term(&mut self, seen: Seen<'_>, set: u32) -> Result<(), Memory> {
        let Some(join) = join_of(seen.problem, set) else {
            return Ok(());
        };
        self.follow_equals(seen, set)?;
        self.follow_join(seen, join)?;
        if self.wanted(seen, join).is_some() {
            self.pending.push(set)?;
        }
        Ok(())
    }

    /// What is to be guessed at a term of two sets, or nothing where all is known there, or nothing puts the element into its sets: that it is in the first of the two, where it is in their union, and else that it is not in the open one of the two.
    fn wanted(&self, seen: Seen<'_>, join: Join) -> Option<Place> {
        let whole = self.is_inside(seen, join.whole.set);
        let first = self.is_inside(seen, join.first.set);
        let second = self.is_inside(seen, join.second.set);
        match (whole, first, second) {
            (Some(true), None, None) => Some(Place {
                set: join.first.set,
                inside: true,
            }),
            (None, Some(true), None) => Some(Place {
                set: join.second.set,
                inside: false,
            }),
            (None, None, Some(true)) => Some(Place {
                set: join.first.set,
                inside: false,
            }),
            _ => None,
        }
    }

    /// Notes what follows from the entry of a set term.
    fn follow(&mut self, seen: Seen<'_>, set: u32) -> Result<(), Memory> {
        let Some(inside) = self.entry(set) else {
            return Ok(());
        };
        self.follow_term(seen, set)?;
        for other in seen.said.equal_sets.of(set) {
            let place = Place {
                set: *other,
                inside,
            };
            self.put(seen, place)?;
        }
        for parent in seen.fixed.terms.parents(set) {
            self.follow_term(seen, *parent)?;
        }
        Ok(())
    }

    /// The next set term that has an entry which was not followed up; then it is.
    fn next(&mut self) -> Option<u32> {
        let place = self.followed;
        let set = self.known.get(place)?;
        self.followed = place + 1;
        Some(*set)
    }

    /// Notes what follows, until nothing more does, or a clash is found.
    fn spread(&mut self, seen: Seen<'_>) -> Result<(), Memory> {
        for _ in 0..u64::MAX {
            if self.clash {
                return Ok(());
            }
            let Some(set) = self.next() else {
                return Ok(());
            };
            self.follow(seen, set)?;
        }
        Ok(())
    }

    /// What is to be guessed next, or nothing where no guess is needed.
    fn next_wanted(&mut self, seen: Seen<'_>) -> Option<Place> {
        for _ in 0..u64::MAX {
            let place = self.settled;
            let set = *self.pending.get(place)?;
            if let Some(join) = join_of(seen.problem, set) {
                let wanted = self.wanted(seen, join);
                if wanted.is_some() {
                    return wanted;
                }
            }
            self.settled = place + 1;
        }
        None
    }

    /// Guesses on until no guess is needed, which is told, or a clash is found.
    fn guess_on(&mut self, seen: Seen<'_>) -> Result<bool, Memory> {
        for _ in 0..u64::MAX {
            self.spread(seen)?;
            if self.clash {
                return Ok(false);
            }
            let Some(place) = self.next_wanted(seen) else {
                return Ok(true);
            };
            self.guesses.push(Guess {
                place,
                known: self.known.len(),
                pending: self.pending.len(),
                settled: self.settled,
            })?;
            self.put(seen, place)?;
        }
        Ok(false)
    }

    /// Takes the last guess back, and notes that it does not hold; tells whether there was one.
    fn take_back(&mut self, seen: Seen<'_>) -> Result<bool, Memory> {
        let Some(guess) = self.guesses.pop() else {
            return Ok(false);
        };
        self.cut_back(guess.known);
        self.followed = guess.known;
        self.pending.truncate(guess.pending);
        self.settled = guess.settled;
        self.clash = false;
        self.put_not(seen, guess.place)?;
        Ok(true)
    }

    /// Completes the column by guesses, and tells whether that could be done: then the set terms that still have no entry do without the element.
    pub(crate) fn complete(&mut self, seen: Seen<'_>) -> Result<bool, Memory> {
        for _ in 0..MOST_RETURNS {
            if self.guess_on(seen)? {
                return Ok(true);
            }
            if !self.take_back(seen)? {
                return Ok(false);
            }
        }
        Ok(false)
    }
}
