//! Solving.

ghost use Rattle.std.specs.Prelude.{◌≡◌, ◌≤◌, ◌^◌};
ghost use Rattle.sc_session.specs.States.{start};
ghost use Rattle.sc_solve.specs.Ends.{at_moment, SolveEnds};

use crate::ending::Ending;
use crate::respond::respond;
use sc_input::{GatherError, gather};
use sc_io::{Sink, Source};
use sc_session::{Session, Verdicts, scripts_are_read};
use sc_sexpr::{Splitter, long_texts_are_cut};
use sc_tree::Decider;
use std::alloc::Global;

/// The most bytes of a script.
const MOST_BYTES: usize = 16_777_216;

/// How solving ended, and the verdicts of the check-sats that were done.
#[derive(Drop)]
pub struct Solved {
    /// How it ended.
    pub ending: Ending,
    /// The verdicts, in order.
    pub verdicts: Verdicts,
}

/// Reads a script, and writes the responses of a new session.
fn run<S: Source, O: Sink, D: Decider>(
    alloc: Global,
    session: &mut Session,
    budget: u64,
    decider: &mut D,
    source: &mut S,
    out: &mut O,
) -> Ending
    requires limit { (1 ≤ budget) × (budget ≤ 2 ^ 40) }
    requires fresh { session.old ≡ start }
    ensures { SolveEnds budget (at_moment (S.moment source.old) (O.moment out.old)) (at_moment (S.moment source.new) (O.moment out.new)) result session.new.verdicts }
{
    scripts_are_read();
    long_texts_are_cut();
    let mut splitter = Splitter::new(alloc, MOST_BYTES as u64);
    match gather(source, &mut splitter, MOST_BYTES + 1) {
        Ok(_) => {
            let ending = respond(alloc, &mut splitter, session, budget, decider, out);
            return ending;
        }
        Err(GatherError::Failed) => return Ending::ReadFault,
        Err(GatherError::Memory) => return Ending::Memory,
    }
}

/// Reads the script that the source gives, and writes the responses to its commands to the sink.
///
/// The input is read to its end, or up to one byte more than the 16,777,216 that a script may
/// have, before the first command is done. Each response is written as soon as its command is
/// done. The responses end with the script's end, with `(exit)`, or with the first error. Each
/// check-sat has at most `budget` steps on each branch, 1 to 2^40, and the decider answers it.
pub fn solve<S: Source, O: Sink, D: Decider>(
    alloc: Global,
    budget: u64,
    decider: &mut D,
    source: &mut S,
    out: &mut O,
) -> Solved
    requires limit { (1 ≤ budget) × (budget ≤ 2 ^ 40) }
    ensures { SolveEnds budget (at_moment (S.moment source.old) (O.moment out.old)) (at_moment (S.moment source.new) (O.moment out.new)) result.ending result.verdicts }
{
    let mut session = Session::new(alloc);
    let ending = run(alloc, &mut session, budget, decider, source, out);
    Solved {
        ending,
        verdicts: session.into_verdicts(),
    }
}
