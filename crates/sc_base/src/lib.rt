//! What several crates share: lists that contracts see as lists, numbered look-ups, spans of integers, sums past 128 bits, and the definitions and lemmas on options, lists and integers that go with them.
#![tactic(auto)]

mod numbered;
mod sequence;
mod span;
mod total;

pub use numbered::item_at;
pub use sequence::Sequence;
pub use span::Span;
pub use total::Total;
