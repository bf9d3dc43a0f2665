//! Answers the scripts that the command line names, one after the other.
//!
//! `corpus FILE ..` prints a line with each file's name, and behind it what `setcard solve` writes
//! for the script that the file holds. Each script has 100,000 steps on each branch of a check-sat.
//! The scripts and their answers lie in the folder `data`; the gate runs all of them.
//!
//! The exit status is 0 where each script was answered to its end or to `(exit)`, and 1 where one
//! has an error, a file can't be read, memory is refused, or writing fails; then no further script
//! is read.
#![tactic(auto)]

mod failure;

use failure::Failure;
use sc_io::{ReaderSource, WriterSink};
use sc_solve::{Ending, solve};
use sc_workers::Alone;
use std::fs::File;
use std::{env, io};

/// How many steps a branch of a check-sat may have.
const STEPS: u64 = 100_000;

fn names(rt: &HostRuntime) -> io::Result<Vec<String>> {
    Ok(env::args(rt)?.skip(1).collect(rt.alloc())?)
}

/// Prints the file's name and the responses to its script.
fn answer(rt: &HostRuntime, name: &str) -> Result<(), Failure> {
    println!(rt; "{name}")?;
    let mut source = ReaderSource::new(File::open(rt, name)?);
    let mut out = WriterSink::new(io::writer(rt));
    match solve(rt.alloc(), STEPS, &mut Alone, &mut source, &mut out).ending {
        Ending::Done => Ok(()),
        Ending::Memory => Err(Failure::Memory),
        Ending::Error => Err(Failure::Script),
        Ending::ReadFault | Ending::WriteFault => Err(Failure::Outside),
    }
}

fn main(rt: HostRuntime) -> Result<(), Failure> {
    for name in &names(&rt)? {
        answer(&rt, name)?;
    }
    Ok(())
}
