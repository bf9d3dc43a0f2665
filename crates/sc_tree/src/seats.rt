//! Which leaf each seat holds.
ghost use Rattle.std.specs.Prelude.{◌≡◌, [], ◌∷◌, ◌++◌, length, OnOk, OnErr};
ghost use Rattle.sc_tree.specs.Keeping.{leaf_of as find_leaf, without, holding, is_nil};

use sc_terms::Memory;
use std::alloc::Global;
use std::marker::Model;

#[derive(Clone, Copy)]
pub struct Holding {
    pub seat: u32,
    pub leaf: u64,
}

/// A list of few seats, each with its leaf.
#[derive(Drop)]
pub struct Seats {
    items: Vec<Holding>,
}

impl Model for Seats {
    ghost use Rattle.std.specs.Prelude.{List};
    ghost use Rattle.sc_tree.specs.declared.seats.Holding.{Holding};

    ghost Value = { List Holding };

    ghost view = { λ s. s.items.items };
}

impl Seats {
    pub fn new(alloc: Global) -> Seats
        ensures { result ≡ [] }
    {
        Seats {
            items: Vec::new(alloc),
        }
    }

    pub fn leaf_of(&self, seat: u32) -> Option<u64>
        ensures { result ≡ find_leaf self.now seat }
    {
        for holding in &self.items {
            if holding.seat == seat {
                return Some(holding.leaf);
            }
        }
        None
    }

    pub fn add(&mut self, seat: u32, leaf: u64) -> Result<(), Memory>
        ensures ok { OnOk result (self.new ≡ self.old ++ holding seat leaf ∷ []) }
        ensures err { OnErr result (self.new ≡ self.old) }
    {
        self.items.push(Holding { seat, leaf })?;
        Ok(())
    }

    pub fn remove(&mut self, seat: u32)
        ensures { self.new ≡ without self.old seat }
    {
        self.items.retain(|holding| holding.seat != seat);
    }

    /// How many seats hold a leaf.
    pub fn len(&self) -> usize
        ensures { result ≡ length self.now }
    {
        self.items.len()
    }

    /// Whether no seat holds a leaf.
    pub fn is_empty(&self) -> bool
        ensures { result ≡ is_nil self.now }
    {
        self.items.is_empty()
    }
}
