//! The program over any source and sink.

ghost use Rattle.std.specs.Prelude.{◌≡◌, ◌≤◌, ◌^◌, ℕ, true, false, map, string_bytes, Some, None};
ghost use Rattle.sc_check.specs.Ends as check;
ghost use Rattle.sc_solve.specs.Ends.{at_moment};
ghost use Rattle.sc_tree.specs.Budgets.{IsBudget};
ghost use Rattle.setcard.specs.Words as command;
ghost use Rattle.setcard.specs.Ends as ends;
ghost use Rattle.setcard.specs.Ends.{IsSolving, IsChecking, IsRefusing};

use crate::ended::Ended;
use crate::gate::Gate;
use crate::words::{is_check, steps_of, usage_line};
use sc_check::{Ending as CheckEnd, check_input};
use sc_io::{PutError, Sink, Source, put_all};
use sc_session::Verdicts;
use sc_solve::{Ending, solve};
use sc_tree::Budget;
use sc_workers::Alone;
use std::alloc::Global;

/// How many workers solve where the words name none.
const WORKERS: u32 = 1;

/// The exit status of a run that solves.
fn status_of(ending: Ending) -> u8
    ensures { result ≡ ends.status_of ending }
{
    match ending {
        Ending::Done => 0,
        Ending::Error => 1,
        Ending::ReadFault => 3,
        Ending::WriteFault => 4,
        Ending::Memory => 5,
    }
}

/// The steps on each branch of a check-sat.
fn steps(budget: Budget) -> u64
    ensures { result ≡ ends.steps budget }
{
    match budget {
        Budget::Steps(steps) => steps,
        Budget::Full => 1_099_511_627_776,
    }
}

/// Answers the script that the source gives, and writes the responses to the sink.
///
/// `_rt` is the runtime that the program was started with, and `alloc` gives all memory.
/// `_workers` is how many threads work, 1 to 64, and each worker passes the gate; so far the caller
/// works alone. `budget` is how many steps a branch of a check-sat may have, 1 to 2^40;
/// [`Budget::Full`] is 2^40. The input is read to its end, or up to one byte more than the
/// 16,777,216 that a script may have, before the first command is done; each response is written
/// as soon as its command is done.
///
/// The status is 0 where the script was done to its end or to `(exit)`, and 1 where the last
/// response is an error; 3 where the source failed, and then nothing was written; 4 where the sink
/// failed, and then nothing more was written; 5 where memory was refused, here or in the sink.
pub fn solve_run<R, S: Source, O: Sink, G: Gate>(
    _rt: &R,
    alloc: Global,
    _workers: u32,
    budget: Budget,
    source: &mut S,
    out: &mut O,
    _gate: &G,
) -> Ended
    requires some_workers { 1 ≤ _workers }
    requires few_workers { _workers ≤ 64 }
    requires budget { IsBudget budget }
    ensures { IsSolving (ends.steps budget) (at_moment (S.moment source.old) (O.moment out.old)) (at_moment (S.moment source.new) (O.moment out.new)) result.status result.verdicts }
{
    let solved = solve(alloc, steps(budget), &mut Alone, source, out);
    Ended {
        status: status_of(solved.ending),
        verdicts: solved.verdicts,
    }
}

/// The exit status of a run that checks.
fn check_status(ending: CheckEnd) -> u8
    ensures { result ≡ ends.check_status ending }
{
    match ending {
        CheckEnd::Done => 0,
        CheckEnd::Error => 1,
        CheckEnd::ReadFault => 3,
        CheckEnd::WriteFault => 4,
        CheckEnd::Memory => 5,
        CheckEnd::Refused => 6,
        CheckEnd::Nothing => 7,
    }
}

/// Checks the derivations that follow a script in the input that the source gives, as
/// [`check_input`] does, and writes a line for each to the sink. `alloc` gives all memory.
///
/// The status is 0 where each derivation is accepted; 1 where the last line is an error of the
/// script or of the text behind it; 3 where the source failed, and then nothing was written; 4
/// where the sink failed, and then nothing more was written; 5 where memory was refused, here or in
/// the sink; 6 where a derivation is refused and no line is an error; and 7 where no derivation
/// follows `(exit)` and no line is an error. There are no verdicts.
pub fn check_run<S: Source, O: Sink>(alloc: Global, source: &mut S, out: &mut O) -> Ended
    ensures { IsChecking (check.at_moment (S.moment source.old) (O.moment out.old)) (check.at_moment (S.moment source.new) (O.moment out.new)) result.status result.verdicts }
{
    let ending = check_input(alloc, source, out);
    Ended {
        status: check_status(ending),
        verdicts: Verdicts::new(alloc),
    }
}

/// Writes how the program is called.
fn show_usage<O: Sink>(alloc: Global, out: &mut O) -> Ended
    ensures { IsRefusing (O.moment out.old) (O.moment out.new) result.status result.verdicts }
{
    let status = match put_all(out, usage_line()) {
        Ok(()) => 2,
        Err(PutError::Sink) => 4,
        Err(PutError::Memory) => 5,
    };
    Ended {
        status,
        verdicts: Verdicts::new(alloc),
    }
}

/// Runs the program with the words of its command line, without the program's own name.
///
/// `solve`, which `--budget N` or `--budget=N` with a number from 1 to 1,099,511,627,776 may
/// follow, answers the script that the source gives, as [`solve_run`] does; without a number there
/// are 100,000 steps on a branch. `check` alone checks derivations, as [`check_run`] does. With any
/// other words nothing is read, the usage line is written, and the status is 2, or 4 or 5 where the
/// sink failed or lacked memory.
pub fn run<R, S: Source, O: Sink, G: Gate>(
    rt: &R,
    alloc: Global,
    words: &[String],
    source: &mut S,
    out: &mut O,
    gate: &G,
) -> Ended
    // With the command that solves, the responses to the script are written, or a front of them, and each status has its cause.
    ensures solves { (n : ℕ) → command.steps_of (map string_bytes words.now) ≡ Some n → IsSolving n (at_moment (S.moment source.old) (O.moment out.old)) (at_moment (S.moment source.new) (O.moment out.new)) result.status result.verdicts }
    // With the command that checks, the lines of the derivations are written, or a front of them, and each status has its cause.
    ensures checks { command.is_check (map string_bytes words.now) ≡ true → IsChecking (check.at_moment (S.moment source.old) (O.moment out.old)) (check.at_moment (S.moment source.new) (O.moment out.new)) result.status result.verdicts }
    // With other words nothing is read, and the usage line is written, or a front of it.
    ensures refuses { command.steps_of (map string_bytes words.now) ≡ None → command.is_check (map string_bytes words.now) ≡ false → IsRefusing (O.moment out.old) (O.moment out.new) result.status result.verdicts }
    ensures untouched { command.steps_of (map string_bytes words.now) ≡ None → command.is_check (map string_bytes words.now) ≡ false → source.new ≡ source.old }
{
    if is_check(words) {
        return check_run(alloc, source, out);
    }
    match steps_of(words) {
        Some(steps) => solve_run(rt, alloc, WORKERS, Budget::Steps(steps), source, out, gate),
        None => show_usage(alloc, out),
    }
}
