//! Checking an input.

ghost use Rattle.std.specs.Prelude.{◌≡◌};
ghost use Rattle.sc_check.specs.Ends as ends;
ghost use Rattle.sc_check.specs.Following as whole;
ghost use Rattle.sc_check.specs.Ends.{at_moment, CheckEnds};

use crate::ending::Ending;
use crate::follow::{Followed, follow};
use crate::judge::{judge_all, refuse};
use sc_input::{GatherError, Reach, gather};
use sc_io::{Sink, Source};
use sc_session::Session;
use sc_sexpr::Splitter;
use std::alloc::Global;

/// The most bytes of a script.
const MOST_BYTES: usize = 16_777_216;

/// The most bytes behind a script.
const MOST_MORE: usize = 1_152_921_504_606_846_976;

/// Checks the text that a splitter has.
fn check_text<O: Sink>(alloc: Global, splitter: &mut Splitter, out: &mut O) -> Ending
    requires { whole.IsFresh splitter.old }
    ensures { ends.JudgeGives splitter.old (O.moment out.old) (O.moment out.new) result }
{
    let mut session = Session::new(alloc);
    match follow(alloc, splitter, &mut session) {
        Ok(Followed::Exited(asked)) => {
            splitter.go_on(MOST_MORE as u64);
            judge_all(alloc, splitter, &session, &asked, out)
        }
        Ok(Followed::Stopped(line)) => refuse(line.as_slice(), out),
        Ok(Followed::Unended) => Ending::Nothing,
        Err(_) => Ending::Memory,
    }
}

/// Checks the derivations that follow a script in the input that the source gives, and writes a
/// line for each to the sink.
///
/// The input is read to its end before the first command is done. A script may have 16,777,216
/// bytes, and 2^60 may follow its `(exit)`. The commands of the script are done up to `(exit)`
/// without solving; the first error ends the check with its line. Where the script ends without
/// `(exit)` there are no derivations, and nothing is written. Among the items behind `(exit)`, a list
/// headed by the bare word `derivation` is a derivation, and all else is passed over. The k-th
/// derivation belongs to the k-th `(get-proof)`, and is checked against the assertions of its
/// check-sat. Its line is `derivation k: accepted`, `derivation k: refused at node
/// n: CODE text`, or `derivation k: refused: no get-proof`. A fault of the text behind the script is
/// written as an error line, and ends the check. `alloc` gives all memory.
///
/// The answer is how the check ended. Where the source failed nothing was written; where the sink
/// failed, or memory was refused, what was written is a front of the lines, and nothing more is.
pub fn check_input<S: Source, O: Sink>(alloc: Global, source: &mut S, out: &mut O) -> Ending
    ensures { CheckEnds (at_moment (S.moment source.old) (O.moment out.old)) (at_moment (S.moment source.new) (O.moment out.new)) result }
{
    let mut splitter = Splitter::new(alloc, MOST_BYTES as u64);
    match gather(source, &mut splitter, MOST_BYTES + MOST_MORE + 1) {
        Ok(Reach::End) => {
            let ending = check_text(alloc, &mut splitter, out);
            return ending;
        }
        Err(GatherError::Failed) => return Ending::ReadFault,
        // More bytes than a script and what follows it may have, which is more than any machine
        // keeps.
        Ok(Reach::Most) => return Ending::Memory,
        Err(GatherError::Memory) => return Ending::Memory,
    }
}
