//! Values of nodes, as far as they have been found.

ghost use Rattle.std.specs.Prelude.{◌≡◌, [], ◌∷◌, ◌++◌, length, OnOk};
ghost use Rattle.sc_base.specs.Integers.{IsAscending};
ghost use Rattle.sc_base.specs.Numbered.{item_at};
ghost use Rattle.sc_meaning.specs.Worths.{flag_in, number_in, members_in};

use sc_base::item_at;
use sc_runs::{Memory, Runs};
use std::alloc::Global;
use std::marker::Model;

/// The value of a node.
#[derive(Drop)]
pub enum Worth {
    /// That of a formula.
    Flag(bool),
    /// That of an element.
    Number(i128),
    /// That of a set term.
    Set(Runs),
    /// Not asked for.
    Unknown,
}

/// The values of the first nodes of a bank, seen as the list of them.
#[derive(Drop)]
pub struct Values {
    worths: Vec<Worth>,
    /// The empty set.
    none: Runs,
}

impl Model for Values {
    ghost use Rattle.std.specs.Prelude.{◌≡◌, List, []};
    ghost use Rattle.sc_meaning.specs.declared.values.Worth.{Worth};

    ghost Value = { List Worth };

    ghost view = { λ v. v.worths.items };

    ghost invariant = { λ v. v.none ≡ [] };
}

impl Values {
    /// No values.
    pub fn new(alloc: Global) -> Values
        ensures { result ≡ [] }
    {
        Values {
            worths: Vec::new(alloc),
            none: Runs::empty(alloc),
        }
    }

    /// Adds the value of the next node.
    pub fn push(&mut self, worth: Worth) -> Result<(), Memory>
        ensures { OnOk result (self.new ≡ self.old ++ worth ∷ []) }
    {
        match self.worths.push(worth) {
            Ok(()) => Ok(()),
            Err(_) => Err(Memory),
        }
    }

    /// The value of the formula with this number.
    pub fn flag(&self, number: u32) -> bool
        ensures { result ≡ flag_in (item_at self.now number) }
    {
        match item_at(self.worths.as_slice(), number) {
            Some(Worth::Flag(value)) => *value,
            _ => false,
        }
    }

    /// The value of the element with this number.
    pub fn number(&self, number: u32) -> i128
        ensures { result ≡ number_in (item_at self.now number) }
    {
        match item_at(self.worths.as_slice(), number) {
            Some(Worth::Number(value)) => *value,
            _ => 0,
        }
    }

    /// The members of the set term with this number.
    pub fn set(&self, number: u32) -> &Runs
        ensures value { result.now ≡ members_in (item_at self.now number) }
    {
        match item_at(self.worths.as_slice(), number) {
            Some(Worth::Set(members)) => members,
            _ => &self.none,
        }
    }
}
