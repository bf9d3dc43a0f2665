//! Laws of the definitions, each the contract of a function that does nothing.

ghost use Rattle.sc_rows.specs.Laws.{RefutedRowsHaveNoValues, RefutedPathsDoNotHold, YesGivesRows, FailuresAreTheFirst, ItemsWantNoMemory};

use sc_linear::{quotients_hold, rows_hold_by_atoms, sums_hold};

/// Where a program refutes rows, no integers for the atoms make all of them hold.
pub fn refuted_rows_have_no_values()
    ensures { RefutedRowsHaveNoValues }
{
    sums_hold();
    quotients_hold();
}

/// Where a program refutes the rows of a path, no values of the problem's nodes make all facts of the path true.
pub fn refuted_paths_do_not_hold()
    ensures { RefutedPathsDoNotHold }
{
    refuted_rows_have_no_values();
    rows_hold_by_atoms();
}

/// A program is judged `Yes` exactly where its items give rows, each from those that are given and from the earlier ones, of which the last is 0 <= -1.
#[tactic(auto, using(crate::proofs::Items::yes_gives_rows))]
pub fn yes_gives_rows()
    ensures { YesGivesRows }
{}

/// Where the items in front of one give rows and this one gives none, it is the item that `Wide` or `No` names, with what it is too wide for. Where all give rows and the last is not 0 <= -1, or there is none, `No` names their number.
#[tactic(auto, using(crate::proofs::Items::failures_are_the_first))]
pub fn failures_are_the_first()
    ensures { FailuresAreTheFirst }
{}

/// The meaning of an item never speaks of memory.
#[tactic(auto, using(crate::proofs::Items::items_want_no_memory))]
pub fn items_want_no_memory()
    ensures { ItemsWantNoMemory }
{}
