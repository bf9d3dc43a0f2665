//! What an answer says that goes past 128 bits.

use sc_terms::{Atom, Cube, Sequence};

/// A list of regions.
pub type Cubes = Sequence<Cube>;

/// Numbers of row facts of a path, counted from 1 in path order.
pub type RowNumbers = Sequence<u64>;

/// Of what on a path a number, a sum of products with the values that the path fixes, lies outside 128 bits.
#[derive(Drop)]
pub enum Note {
    /// The row fact with this number, counted from 1 in path order.
    Row(u64),
    /// The element with this number, which is an Int term.
    Term(u32),
    /// The sizes of these regions together.
    Cubes(Cubes),
    /// The sum of the row facts with these numbers.
    Sum(RowNumbers),
    /// This atom itself.
    Far(Atom),
}
