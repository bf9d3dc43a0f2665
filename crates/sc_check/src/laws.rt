//! What an accepted derivation tells, and which ones are accepted.

ghost use Rattle.sc_check.specs.Laws.{AcceptedRefute};
ghost use Rattle.sc_check.specs.Claims.{AcceptedRefuteScripts};
ghost use Rattle.sc_check.specs.Printed.{ProofsArePrinted, PrintedAreAccepted, EachIsAnswered, ChecksAcceptPrinted};
ghost use Rattle.sc_check.specs.Transcripts.{TranscriptsAreCopies, ChecksAcceptTranscripts};

use sc_commands::codes_are_by_the_head;
use sc_deriv::{accepts_closed_trees, closed_trees_refute};
use sc_deriv_text::{items_have_tokens, texts_have_tokens};
use sc_elab::elaboration_grows_bank;
use sc_flatten::{meanings_agree, stocks_are_problems, stocks_stay};
use sc_print::errors_read_back;
use sc_session::{
    proofs_refute, sessions_say_the_same, traces_go_along, traces_keep_formulas,
    traces_say_the_same,
};
use sc_sexpr::{items_have_all_tokens, splitters_give_items};
use sc_terms::meanings_fit;

/// Where a derivation is accepted, no interpretation of the constants makes all the assertions true
/// for which its `get-proof` asks: they are unsatisfiable, whoever wrote the derivation.
pub fn accepted_derivations_refute()
    ensures { AcceptedRefute }
{
    accepts_closed_trees();
    closed_trees_refute();
    meanings_fit();
    stocks_are_problems();
    meanings_agree();
}

/// Where a derivation is accepted for a `(get-proof)` of a script that is followed up to its
/// `(exit)`, the script's own assertions there contradict one another: in the script's own terms,
/// under every interpretation of the constants, one of them is false.
pub fn accepted_derivations_refute_scripts()
    ensures { AcceptedRefuteScripts }
{
    accepted_derivations_refute();
    traces_say_the_same();
    traces_keep_formulas();
    elaboration_grows_bank();
    stocks_stay();
}

/// What a script prints where it is solved is accepted where the same script is checked: each text
/// with which a `(get-proof)` is answered, and each copy of it with other white space and comments,
/// is accepted against the assertions of that `(get-proof)`, if the verdicts are just and the check
/// comes to the script's `(exit)`. Where solving has no error either, each `(get-proof)` is
/// answered. So the lines on a transcript whose derivations are these, in order, say of each that it
/// was accepted.
pub fn printed_derivations_are_accepted()
    ensures printed { ProofsArePrinted }
    ensures accepted { PrintedAreAccepted }
    ensures answered { EachIsAnswered }
    ensures checks { ChecksAcceptPrinted }
{
    elaboration_grows_bank();
    stocks_stay();
    proofs_refute();
    traces_go_along();
    sessions_say_the_same();
    accepts_closed_trees();
    texts_have_tokens();
    items_have_tokens();
}

/// The responses to a script, solved with just verdicts, as a transcript: the derivations among their
/// items are those with which its `(get-proof)`s are answered, in order, also where the last response
/// is an error. So the check of an input that has the script up to its `(exit)`, and behind that the
/// responses with any white space and comments between their tokens, accepts each derivation that was
/// printed, and refuses none. Where solving had no error, there is one for each `(get-proof)`.
pub fn transcripts_are_accepted()
    ensures copies { TranscriptsAreCopies }
    ensures checks { ChecksAcceptTranscripts }
{
    printed_derivations_are_accepted();
    proofs_refute();
    sessions_say_the_same();
    texts_have_tokens();
    items_have_tokens();
    splitters_give_items();
    items_have_all_tokens();
    codes_are_by_the_head();
    errors_read_back();
}
