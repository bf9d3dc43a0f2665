//! The neighbours of each number along merged pairs.

ghost use Rattle.std.specs.Prelude.{◌≡◌, ◌<◌, ◌++◌, ◌∷◌, [], ℕ, List, length, slice_set, IfOk, OnOk, OnErr};
ghost use Rattle.sc_classes.specs.Forests as spec;
ghost use Rattle.sc_classes.specs.Forests.{HasNeighbours, IsConnected};

use sc_terms::Memory;
use std::alloc::Global;
use std::marker::Model;

/// Numbers in order, seen as the list.
#[derive(Drop)]
pub(crate) struct Others {
    numbers: Vec<u32>,
}

impl Model for Others {
    ghost use Rattle.std.specs.Prelude.{List, ℕ};

    ghost Value = { List ℕ };

    ghost view = { λ o. o.numbers.items };
}

impl Others {
    fn new(alloc: Global) -> Others
        ensures { result ≡ [] }
    {
        Others {
            numbers: Vec::new(alloc),
        }
    }

    pub(crate) fn as_slice(&self) -> &[u32]
        ensures { result.now ≡ self.now }
    {
        self.numbers.as_slice()
    }

    /// Adds a number at the end.
    fn push(&mut self, number: u32) -> Result<(), Memory>
        ensures ok { OnOk result (self.new ≡ self.old ++ number ∷ []) }
        ensures err { OnErr result (self.new ≡ self.old) }
    {
        match self.numbers.push(number) {
            Ok(()) => Ok(()),
            Err(_) => Err(Memory),
        }
    }

    /// Takes back the last number.
    fn undo(&mut self)
        ensures { (front : List ℕ) → (last : ℕ) → self.old ≡ front ++ last ∷ [] → self.new ≡ front }
    {
        self.numbers.pop();
    }
}

/// So many lists of nothing.
pub(crate) fn empty_lists(alloc: Global, last: u32) -> Result<Vec<Others>, Memory>
    ensures { IfOk result (λ lists. HasNeighbours last [] lists.items) }
{
    let mut lists = Vec::new(alloc);
    for number in 0..=last {
        lists.push(Others::new(alloc))?;
    }
    Ok(lists)
}

/// What the list of a number holds, or nothing past the last list.
pub(crate) fn held_at(lists: &[Others], number: u32) -> &[u32]
    ensures { result.now ≡ spec.held_at lists.now number }
{
    match lists.get(number as usize) {
        Some(list) => list.as_slice(),
        None => &[],
    }
}

/// Adds a number to a list.
fn push_at(lists: &mut [Others], place: u32, number: u32) -> Result<(), Memory>
    requires { place < length lists.old }
    ensures ok { OnOk result (lists.new ≡ slice_set lists.old place (spec.held_at lists.old place ++ number ∷ [])) }
    ensures err { OnErr result (lists.new ≡ lists.old) }
{
    lists[place as usize].push(number)
}

/// Takes back the last number of a list.
fn undo_at(lists: &mut [Others], place: u32)
    requires { place < length lists.old }
    ensures { (front : List ℕ) → (number : ℕ) → spec.held_at lists.old place ≡ front ++ number ∷ [] → lists.new ≡ slice_set lists.old place front }
{
    lists[place as usize].undo();
}

/// Makes two numbers neighbours. Where memory is refused the lists stay as they were.
pub(crate) fn connect(lists: &mut [Others], first: u32, second: u32) -> Result<(), Memory>
    requires first { first < length lists.old }
    requires second { second < length lists.old }
    ensures ok { OnOk result (IsConnected lists.old (first, second) lists.new) }
    ensures err { OnErr result (lists.new ≡ lists.old) }
{
    push_at(lists, first, second)?;
    match push_at(lists, second, first) {
        Ok(()) => Ok(()),
        Err(e) => {
            undo_at(lists, first);
            Err(e)
        }
    }
}
