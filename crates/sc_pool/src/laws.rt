//! Laws of the definitions, each the contract of a function that does nothing.

ghost use Rattle.sc_pool.specs.Laws.{LeastApplies};

/// What is answered is the number of a lemma that applies, and no lesser number is that of one that does; nothing is answered exactly where no lemma applies. A lemma applies where each of its hypotheses stands on the path.
#[tactic(auto, using(crate::proofs::Least::least_applies))]
pub fn least_applies()
    ensures { LeastApplies }
{}
