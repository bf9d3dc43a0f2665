//! The commands of a script of SMT-LIB 2.6, done one after the other.
//!
//! A [`Session`] holds what a script has declared and asserted so far. [`Session::do_command`] does
//! a command and gives its response, [`Session::do_item`] a top item of a text. The commands that
//! are done are those of [`Command`](sc_commands::Command).
//!
//! `turn` of `specs/Effects.antt` says what each item does, and `course` of `specs/Courses.antt`
//! what the responses to a whole script are. That the formulas which are decided say what the
//! script's own terms say, and that a just verdict is right for these terms, is
//! [`sessions_say_the_same`]. Every text is exactly one script ([`scripts_are_read`]). The problems
//! of check-sats may be decided ([`stocks_are_posed`](sc_flatten::stocks_are_posed)), since the bank
//! stays one whose formulas may be posed. What `(get-proof)` answers
//! is a derivation that refutes the problem of the assertions in force ([`proofs_refute`]). A
//! command that is refused leaves the session as it was ([`refusals_leave_sessions`]).
//!
//! [`Session::trace_command`] and [`Session::trace_item`] follow a script without solving, as a
//! checker of its proofs does. `step` of `specs/Tracing.antt` says what each item does there, and
//! [`traces_go_along`] that this goes along with solving. There too the formulas say what the script's
//! own terms say ([`traces_say_the_same`]).
#![tactic(auto)]

mod laws;
mod response;
mod session;
mod tracing;
mod verdicts;

pub use laws::{
    proofs_refute, refusals_leave_sessions, scripts_are_read, sessions_say_the_same,
    traces_go_along, traces_keep_formulas, traces_say_the_same,
};
pub use response::{Response, fault_line, verdict_line};
pub use session::Session;
pub use tracing::Traced;
pub use verdicts::Verdicts;

#[cfg(test)]
mod tests;
