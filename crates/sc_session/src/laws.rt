//! Laws of the definitions.

ghost use Rattle.sc_session.specs.Laws.{AreRead, RefusalsLeave, SayTheSame};
ghost use Rattle.sc_session.specs.Proving.{ProofsRefute, TracesGoAlong};
ghost use Rattle.sc_session.specs.Tracing.{TracesKeep, TracesSay};

use sc_elab::{elaboration_grows_bank, elaboration_keeps_meaning};
use sc_flatten::{meanings_agree, stocks_stay};
use sc_sexpr::{splitters_give_items, splitters_read};

/// Every text is exactly one script.
pub fn scripts_are_read()
    ensures { AreRead }
{
    splitters_read();
    splitters_give_items();
}

/// The formulas that a session has in force are true exactly where the assertions of the script
/// are, in the script's own terms; so a verdict that is just for these formulas is right for the
/// script: values that make every assertion true, or no values do.
pub fn sessions_say_the_same()
    ensures { SayTheSame }
{
    elaboration_keeps_meaning();
    elaboration_grows_bank();
    meanings_agree();
}

/// Following a script without solving keeps the formulas that were made, up to an error; what a
/// `(get-proof)` asks for are the assertions in force.
pub fn traces_keep_formulas()
    ensures { TracesKeep }
{
    elaboration_grows_bank();
}

/// Following a script without solving keeps what its formulas say: those that it has in force are
/// true exactly where the script's own assertions so far are, in the script's own terms.
pub fn traces_say_the_same()
    ensures { TracesSay }
{
    elaboration_keeps_meaning();
    elaboration_grows_bank();
}

/// Where the verdicts of a session are just, the derivation that `(get-proof)` answers refutes the
/// problem of the assertions in force; so it does where a command was refused since.
pub fn proofs_refute()
    ensures { ProofsRefute }
{
    elaboration_grows_bank();
    stocks_stay();
}

/// A command that is refused leaves the session as it was: the names, the assertions, the verdicts
/// and which of them is current. Only the terms that a refused term made before its fault stay, at
/// the end of the bank.
pub fn refusals_leave_sessions()
    ensures { RefusalsLeave }
{
    elaboration_grows_bank();
}

/// Following a script without solving goes along with solving it: the two sessions differ only in
/// their verdicts, and each item has the same error or none. A `(get-proof)` behind a current
/// check-sat is never an error for the one that follows.
pub fn traces_go_along()
    ensures { TracesGoAlong }
{}
