//! Checking the derivations of a transcript against its script, from the bytes of a source to the
//! bytes of a sink.
//!
//! [`check_input`] does the commands of a script up to `(exit)` without solving, reads what follows
//! it, and writes a line for each derivation there. `CheckEnds` of `specs/Ends.antt` says how it
//! ends, and why; `tally` of `specs/Lines.antt` which lines there are. Where a derivation is
//! accepted, its assertions are unsatisfiable ([`accepted_derivations_refute`]), and so are those of the
//! script, in its own terms ([`accepted_derivations_refute_scripts`]). What the same script
//! prints where it is solved is accepted ([`printed_derivations_are_accepted`]), and so
//! are its responses as a whole ([`transcripts_are_accepted`]).
#![tactic(auto)]

mod checker;
mod ending;
mod finding;
mod follow;
mod judge;
mod laws;

pub use checker::check_input;
pub use ending::Ending;
pub use finding::Finding;
pub use laws::{
    accepted_derivations_refute, accepted_derivations_refute_scripts,
    printed_derivations_are_accepted, transcripts_are_accepted,
};

#[cfg(test)]
mod tests;
