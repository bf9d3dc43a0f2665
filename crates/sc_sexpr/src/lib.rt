//! The top items of a script text of SMT-LIB 2.6, and their trees.
//!
//! A [`Splitter`] takes an input in pieces, however it is cut, and gives its top items one after
//! the other: a token outside of every list, or a list with its parentheses. The time is linear in
//! the bytes, and what is kept of them is told by [`Splitter::held`]. At most 1,000 parentheses may
//! be open, and the number of bytes has a limit. [`read_tree`] gives the tree of an item.
//!
//! `items_of` of `specs/Scans.antt` says which items an input has and how it ends. A splitter gives
//! these ([`splitters_read`]), they are those that the input's tokens make ([`items_are_walked`])
//! and have all of these tokens ([`items_have_all_tokens`]), each is one whole item for
//! [`read_tree`] ([`splitters_give_items`]), and a text has one tree ([`trees_are_told`]).
#![tactic(auto)]

mod glide;
mod item;
mod laws;
mod scan;
mod splitter;
mod state;
mod tree;

pub use item::{Fault, Item};
pub use laws::{
    items_are_walked, items_have_all_tokens, long_texts_are_cut, splitters_give_items,
    splitters_read, trees_are_told,
};
pub use splitter::{Memory, Splitter};
pub use tree::{Items, Tree, read_tree};

#[cfg(test)]
mod lines;
#[cfg(test)]
mod tests;
