//! Derivations as text, version 1.
//!
//! A derivation is printed as an s-expression of SMT-LIB 2.6, `(derivation (tree NODE NODE ..))`, with its nodes in preorder and each on a line of its own. `text_of` of `specs/Text.antt` is the text, byte by byte: [`write`] prints it, [`length`] counts it. [`read`] gives back the derivation that a tree of tokens spells, or the first fault in the order of the text and its node, as `reading` of `specs/Reading.antt` defines it.
//!
//! What is printed has the tokens of the expression that spells the derivation ([`texts_have_tokens`]), a tree is read exactly where it is such an expression ([`derivations_read_exactly`]), and so what is printed is read back ([`texts_read_back`]).
#![tactic(auto)]

mod errors;
mod head;
mod held;
mod laws;
mod lengths;
mod parts;
mod reading;
mod tokens;
mod writing;

pub use errors::TextError;
pub use laws::{
    derivations_read_exactly, items_have_tokens, texts_have_tokens, texts_read_back,
    tokens_read_back,
};
pub use lengths::length;
pub use reading::read;
pub use sc_io::PutError as WriteError;
pub use writing::write;

#[cfg(test)]
mod tests;
