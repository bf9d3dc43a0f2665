//! Laws of the definitions.

ghost use Rattle.std.specs.Prelude.{◌≡◌, ◌↔◌, ℕ, None, List};
ghost use Rattle.sc_terms.specs.Meaning.{Valuation, AllTrue};
ghost use Rattle.sc_meaning.specs.Answers.{first_false};

/// No formula of a list is named as the first false one exactly where all of them are true.
#[tactic(auto, using(crate::proofs::Falsity::none_false))]
pub fn none_is_false()
    ensures { (v : Valuation) (fs : List ℕ) → (first_false v fs ≡ None) ↔ AllTrue v fs }
{}
