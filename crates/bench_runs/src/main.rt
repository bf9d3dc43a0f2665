//! Work on sets of many runs and on long chains of terms, to be timed.
//!
//! `bench_runs WORK COUNT` does the work once and prints a line of numbers. WORK is one of
//! - `build`: builds two sets of COUNT runs by balanced unions, and prints the sizes of both;
//! - `combine`: builds them, and prints the sizes of their union, intersection and difference;
//! - `has`: builds them, asks COUNT times whether a number is in the first, and prints how often it is;
//! - `nth`: builds them, asks 1,000 times for the number at a place of the first, and prints how often there is one;
//! - `chain`: puts COUNT set terms into a bank, each the union of the one before it with itself, and prints the size of the last one's value, where the first one is the set from 0 to 10^12.
//!
//! The exit status is 0, or 1 where the words are others, memory is refused, or COUNT passes what a bank holds.
#![tactic(auto)]

mod chain;
mod failure;
mod sets;
mod words;

use failure::Failure;
use sets::Pair;
use std::{env, io};
use words::{Work, asked};

fn command_words(rt: &HostRuntime) -> io::Result<Vec<String>> {
    Ok(env::args(rt)?.skip(1).collect(rt.alloc())?)
}

fn main(rt: HostRuntime) -> Result<(), Failure> {
    let words = command_words(&rt)?;
    let Some((work, count)) = asked(&words) else {
        return Err(Failure::Words);
    };
    match work {
        Work::Build => {
            let (first, second) = Pair::of(rt.alloc(), count)?.sizes()?;
            println!(rt; "{first} {second}")?;
        }
        Work::Combine => {
            let (union, inter, minus) = Pair::of(rt.alloc(), count)?.combined()?;
            println!(rt; "{union} {inter} {minus}")?;
        }
        Work::Has => {
            let found = Pair::of(rt.alloc(), count)?.found(count);
            println!(rt; "{found}")?;
        }
        Work::Nth => {
            let placed = Pair::of(rt.alloc(), count)?.placed()?;
            println!(rt; "{placed}")?;
        }
        Work::Chain => {
            let size = chain::size(rt.alloc(), count)?;
            println!(rt; "{size}")?;
        }
    }
    Ok(())
}
