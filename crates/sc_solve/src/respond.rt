//! Writing the responses to the items of a script.

ghost use Rattle.std.specs.Prelude.{◌≡◌, ◌+◌, ◌<◌, ◌≤◌, ◌^◌, [], true, length};
ghost use Rattle.sc_sexpr.specs.Laws.{reading_of};
ghost use Rattle.sc_sexpr.specs.Trees.{IsItem};
ghost use Rattle.sc_session.specs.Scripts.{Item as Top, IsTold};
ghost use Rattle.sc_session.specs.Doing.{said_by};
ghost use Rattle.sc_session.specs.States.{State, start, IsSession};
ghost use Rattle.sc_io.specs.Writing.{PutGives};
ghost use Rattle.sc_solve.specs.Answering.{of_writing, bytes_of, end_of, AnswerGives, RefuseGives};
ghost use Rattle.sc_solve.specs.Ends.{RespondGives};

use crate::ending::Ending;
use sc_deriv_text::write;
use sc_io::{PutError, Sink, put_all};
use sc_session::{Response, Session, fault_line, sessions_say_the_same};
use sc_sexpr::{Fault, Item, Splitter};
use sc_tree::Decider;
use std::alloc::Global;

/// How a piece that isn't written whole ends the run.
fn of_writing(error: PutError) -> Ending
    ensures { result ≡ of_writing error }
{
    match error {
        PutError::Sink => Ending::WriteFault,
        PutError::Memory => Ending::Memory,
    }
}

/// Writes what a response of the session says.
fn put_response<O: Sink>(
    session: &Session,
    response: &Response,
    out: &mut O,
) -> Result<(), PutError>
    ensures { PutGives (O.moment out.old) (O.moment out.new) (bytes_of (said_by response.now session.now)) result }
{
    match response {
        Response::Text(bytes) | Response::Error(bytes) | Response::Exit(bytes) => {
            put_all(out, bytes.as_slice())
        }
        Response::Proof => match session.proof() {
            Some(derivation) => write(derivation, out),
            None => put_all(out, &[]),
        },
    }
}

/// How the script ends with a response, or nothing where it goes on.
fn end_of(response: &Response) -> Option<Ending>
    ensures { (s : State) → result ≡ end_of (said_by response.now s) }
{
    match response {
        Response::Text(_) | Response::Proof => None,
        Response::Error(_) => Some(Ending::Error),
        Response::Exit(_) => Some(Ending::Done),
    }
}

/// Does an item and writes its response. How the script ends with it, or nothing where it goes on.
fn answer<O: Sink, D: Decider>(
    session: &mut Session,
    text: &[u8],
    line: u64,
    budget: u64,
    decider: &mut D,
    out: &mut O,
) -> Option<Ending>
    requires limit { (1 ≤ budget) × (budget ≤ 2 ^ 40) }
    requires fits { line + length text.now < 2 ^ 64 }
    requires item { IsItem text.now line }
    ensures gives { (i : Top) → IsTold (record { text = text.now; line = line }) i → AnswerGives session.old session.new i budget (O.moment out.old) (O.moment out.new) result }
    ensures session { IsSession session.old }
{
    let Ok(response) = session.do_item(text, line, budget, decider) else {
        return Some(Ending::Memory);
    };
    match put_response(session, &response, out) {
        Ok(()) => end_of(&response),
        Err(error) => Some(of_writing(error)),
    }
}

/// Writes the error line of a fault of the text.
fn refuse<O: Sink>(alloc: Global, fault: Fault, out: &mut O) -> Ending
    ensures { RefuseGives fault (O.moment out.old) (O.moment out.new) result }
{
    let Ok(line) = fault_line(alloc, fault) else {
        return Ending::Memory;
    };
    match put_all(out, line.as_slice()) {
        Ok(()) => Ending::Error,
        Err(error) => of_writing(error),
    }
}

/// Does the items that a splitter has still to give, up to their end, the first error or `(exit)`,
/// and writes each response as it comes.
pub(crate) fn respond<O: Sink, D: Decider>(
    alloc: Global,
    splitter: &mut Splitter,
    session: &mut Session,
    budget: u64,
    decider: &mut D,
    out: &mut O,
) -> Ending
    requires limit { (1 ≤ budget) × (budget ≤ 2 ^ 40) }
    requires finished { splitter.old.last ≡ true }
    requires fresh { session.old ≡ start }
    ensures { RespondGives budget (reading_of splitter.old []) (O.moment out.old) (O.moment out.new) result session.new.verdicts }
{
    sessions_say_the_same();
    loop {
        match splitter.next_item() {
            Item::Top { line } => {
                match answer(session, splitter.item(), line, budget, decider, out) {
                    Some(end) => return end,
                    None => {}
                }
            }
            Item::End => return Ending::Done,
            Item::Bad(fault) => return refuse(alloc, fault, out),
            Item::More => unreachable!(),
        }
    }
}
