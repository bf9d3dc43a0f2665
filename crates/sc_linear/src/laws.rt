//! Laws of rows.

ghost use Rattle.sc_linear.specs.Laws.{FormsAreCoefficients, SumsAddValues, SumsHold, QuotientsHold, OppositesHold, RowsHoldByAtoms};

/// Two forms in which each atom has the same coefficient are one.
#[tactic(auto, using(crate::proofs::Forms::form_is_coefficients))]
pub fn forms_are_coefficients()
    ensures { FormsAreCoefficients }
{}

/// Whatever integers the atoms are, a form plus a multiple of another has the first form's value plus the multiple of the second's.
#[tactic(auto, using(crate::proofs::Valuing::value_sum))]
pub fn sums_add_values()
    ensures { SumsAddValues }
{}

/// Where integers for the atoms satisfy two rows, they satisfy the first plus a multiple of the second by a factor that is not negative.
#[tactic(auto, using(crate::proofs::Valuing::sum_holds))]
pub fn sums_hold()
    ensures { SumsHold }
{}

/// The same integers satisfy a row and the row divided, with its bound rounded down.
#[tactic(auto, using(crate::proofs::Scaling::quotients_hold))]
pub fn quotients_hold()
    ensures { QuotientsHold }
{}

/// Integers satisfy the opposite of a row exactly where they don't satisfy the row.
#[tactic(auto, using(crate::proofs::Valuing::opposite_holds))]
pub fn opposites_hold()
    ensures { OppositesHold }
{}

/// A row is true for the nodes of a problem exactly where the values of its atoms satisfy it.
#[tactic(auto, using(crate::proofs::Valuing::row_by_atoms))]
pub fn rows_hold_by_atoms()
    ensures { RowsHoldByAtoms }
{}
