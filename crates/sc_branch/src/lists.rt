//! Lists of numbers by a number, which grow at their ends.

use sc_terms::Memory;
use std::alloc::Global;

/// A list of numbers for each number from 1 up to a count.
#[derive(Drop)]
pub(crate) struct Lists {
    lists: Vec<Vec<u32>>,
}

impl Lists {
    /// Empty lists for the numbers from 1 up to this count.
    pub(crate) fn new(alloc: Global, count: u32) -> Result<Lists, Memory> {
        let mut lists = Vec::new(alloc);
        for _ in 0..count {
            lists.push(Vec::new(alloc))?;
        }
        Ok(Lists { lists })
    }

    /// Adds an item to the list of a number; does nothing where that is no number of a list.
    pub(crate) fn add(&mut self, number: u32, item: u32) -> Result<(), Memory> {
        if number == 0 {
            return Ok(());
        }
        if let Some(list) = self.lists.get_mut(number as usize - 1) {
            list.push(item)?;
        }
        Ok(())
    }

    /// The list of a number, empty where that is no number of a list.
    pub(crate) fn of(&self, number: u32) -> &[u32] {
        if number == 0 {
            return &[];
        }
        match self.lists.get(number as usize - 1) {
            Some(list) => list.as_slice(),
            None => &[],
        }
    }
}
