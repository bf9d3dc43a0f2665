//! Laws of the definitions.

ghost use Rattle.sc_sorts.specs.Sorted.{SortsAreFound, SortsMatch};

/// In a well-sorted problem the sort of each set term's members, and of each element, is found.
#[tactic(auto, using(crate::proofs::Found::sorts_are_found))]
pub fn sorts_are_found()
    ensures { SortsAreFound }
{}

/// In a well-sorted problem two terms that are there are found to be of one sort exactly where they are.
#[tactic(auto, using(crate::proofs::Found::sorts_match))]
pub fn sorts_match()
    ensures { SortsMatch }
{}
