//! A solver for finite sets.
//!
//! `setcard solve` reads a script in the language of SMT-LIB 2.6 from standard input and writes
//! its responses to standard output. It knows `set-logic`, `set-info`, `declare-sort`,
//! `declare-const`, `declare-fun` without arguments, `assert`, `check-sat`, `get-proof`, `echo` and
//! `exit`, over Booleans, declared sorts and their finite sets. An error ends the script, as
//! `(error "line 3: E6 unknown symbol")`. A script has at most 16,777,216 bytes.
//!
//! `setcard check` reads a script up to its `(exit)`, and behind it what `setcard solve` wrote for
//! it. It writes a line for each derivation there: `derivation 1: accepted`, or why it is refused.
//!
//! The exit status is 0 where the script was done or each derivation is accepted, 1 where an error
//! was printed, 2 where the words of the command line were refused, 3 after a read fault, 4 after a
//! write fault, 5 for want of memory, 6 where a derivation is refused, and 7 where there is no
//! derivation to check.
#![tactic(auto)]

mod ended;
mod gate;
mod run;
mod words;

use gate::OpenGate;
use run::run;
use sc_io::{ReaderSource, WriterSink};
use std::process::ExitCode;
use std::{env, io};

#[cfg(test)]
mod check_tests;
#[cfg(test)]
mod reading_tests;
#[cfg(test)]
mod set_tests;
#[cfg(test)]
mod tests;

/// The status for want of memory.
const MEMORY: u8 = 5;

fn command_words(rt: &HostRuntime) -> io::Result<Vec<String>> {
    Ok(env::args(rt)?.skip(1).collect(rt.alloc())?)
}

fn main(rt: HostRuntime) -> ExitCode {
    let words = match command_words(&rt) {
        Ok(words) => words,
        Err(error) if matches!(error.kind(), io::ErrorKind::OutOfMemory) => {
            return ExitCode::from(MEMORY);
        }
        // A word that isn't UTF-8 is refused like any other, and no words are.
        Err(_) => Vec::new(rt.alloc()),
    };
    let mut source = ReaderSource::new(rt.reader());
    let mut out = WriterSink::new(io::writer(&rt));
    let ended = run(&rt, rt.alloc(), &words, &mut source, &mut out, &OpenGate);
    ExitCode::from(ended.status)
}
