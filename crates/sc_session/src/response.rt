//! Responses.

ghost use Rattle.std.specs.Prelude.{◌≡◌, [], IfOk};
ghost use Rattle.sc_print.specs.Spelling.{spelt_error};
ghost use Rattle.sc_session.specs.Courses as courses;
ghost use Rattle.sc_session.specs.Effects as effects;
ghost use Rattle.sc_session.specs.Effects.{line_of};
ghost use Rattle.sc_session.specs.declared.response.Response.TheVariants as response;

use sc_base::Sequence;
use sc_print::error_line;
use sc_sexpr::Fault;
use sc_terms::Memory;
use sc_text::Code;
use sc_tree::Verdict;
use std::alloc::Global;

/// The response to a command, as the bytes that are written for it: whole lines, or none at all.
#[derive(Drop)]
pub enum Response {
    /// The command was done.
    Text(Sequence<u8>),
    /// The command was `(get-proof)`, and the session has a proof: the bytes are those of the text
    /// of [`Session::proof`](crate::Session::proof), which this does not hold.
    Proof,
    /// The command has a fault, `(error "line L: Ek text")`. The script ends with it.
    Error(Sequence<u8>),
    /// The command was `(exit)`. The script ends with it.
    Exit(Sequence<u8>),
}

/// The response of a command that says nothing.
pub(crate) fn quiet(alloc: Global) -> Response
    ensures { result ≡ response.Text [] }
{
    Response::Text(Sequence::new(alloc))
}

/// These bytes and a line feed.
pub(crate) fn line(alloc: Global, text: &[u8]) -> Result<Response, Memory>
    ensures { IfOk result (λ r. r ≡ response.Text (line_of text.now)) }
{
    let mut bytes = text.to_vec(alloc)?;
    bytes.push(b'\n')?;
    Ok(Response::Text(Sequence::from_vec(bytes)))
}

/// The bytes of the error line with this code.
fn error_bytes(alloc: Global, line: u64, code: Code) -> Result<Sequence<u8>, Memory>
    ensures { IfOk result (λ b. b ≡ spelt_error line code) }
{
    let mut bytes = Vec::new(alloc);
    match error_line(&mut bytes, line, code) {
        Ok(()) => Ok(Sequence::from_vec(bytes)),
        Err(_) => Err(Memory),
    }
}

/// The error with this code.
pub(crate) fn refusal(alloc: Global, line: u64, code: Code) -> Result<Response, Memory>
    ensures { IfOk result (λ r. r ≡ response.Error (spelt_error line code)) }
{
    let bytes = error_bytes(alloc, line, code)?;
    Ok(Response::Error(bytes))
}

/// The error line of a fault of a text: E1 for bytes that are no token, E2 for a closing
/// parenthesis outside of every list, E3 for an item that isn't closed at the end, E16 for a limit
/// that was passed. The only error is want of memory.
pub fn fault_line(alloc: Global, fault: Fault) -> Result<Sequence<u8>, Memory>
    ensures { IfOk result (λ b. b ≡ courses.fault_line fault) }
{
    match fault {
        Fault::Lexical { line } => error_bytes(alloc, line, Code::E1),
        Fault::Unmatched { line } => error_bytes(alloc, line, Code::E2),
        Fault::Unclosed { line } => error_bytes(alloc, line, Code::E3),
        Fault::Limit { line, number } => error_bytes(alloc, line, Code::E16(number)),
    }
}

/// The response to a check-sat, `sat`, `unsat` or `unknown` on a line.
pub fn verdict_line(verdict: &Verdict) -> &'static [u8]
    ensures { result.now ≡ effects.verdict_line verdict.now }
{
    match verdict {
        Verdict::Sat(_) => b"sat\n",
        Verdict::Unsat(_) => b"unsat\n",
        Verdict::Unknown(_) => b"unknown\n",
    }
}

/// The response of a check-sat with this verdict.
pub(crate) fn told(alloc: Global, verdict: &Verdict) -> Result<Response, Memory>
    ensures { IfOk result (λ r. r ≡ response.Text (effects.verdict_line verdict.now)) }
{
    let bytes = Sequence::from_slice(alloc, verdict_line(verdict))?;
    Ok(Response::Text(bytes))
}
