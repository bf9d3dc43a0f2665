//! What is known of commands that are followed without solving.

ghost use Rattle.std.specs.Prelude.{◌≡◌, IfOk};
ghost use Rattle.sc_print.specs.Spelling.{spelt_error};
ghost use Rattle.sc_session.specs.declared.tracing.Traced.TheVariants as traced;
ghost use Rattle.sc_session.specs.Tracing.{given_by};

use crate::response::{Response, refusal};
use sc_base::Sequence;
use sc_terms::{Memory, Numbers};
use sc_text::Code;
use std::alloc::Global;

/// What is known of a command that is done without solving.
#[derive(Drop)]
pub enum Traced {
    /// The script goes on.
    Nothing,
    /// The command was `(get-proof)`. These are the assertions of the check-sat that is current, in
    /// order: a derivation is to refute them.
    Proof(Numbers),
    /// The command has a fault, whose line these bytes are. The script ends with it.
    Error(Sequence<u8>),
    /// The command was `(exit)`. The script ends with it.
    Exit,
}

/// What is known of a command with this response.
pub(crate) fn known_of(response: Response) -> Traced
    ensures { result ≡ given_by response }
{
    match response {
        Response::Text(_) | Response::Proof => Traced::Nothing,
        Response::Error(bytes) => Traced::Error(bytes),
        Response::Exit(_) => Traced::Exit,
    }
}

/// The error with this code.
pub(crate) fn traced_refusal(alloc: Global, line: u64, code: Code) -> Result<Traced, Memory>
    ensures { IfOk result (λ t. t ≡ traced.Error (spelt_error line code)) }
{
    Ok(known_of(refusal(alloc, line, code)?))
}
