//! Splitting and lexing alone, to be timed.
//!
//! `bench_reading WORK` reads standard input to its end, does the work once, and prints a count.
//! WORK is one of
//! - `read`: nothing more; the count is that of the bytes;
//! - `split`: splits the input into its top items, fed in pieces of 65,536 bytes; the count is that of the items before the end or the first fault;
//! - `lex`: goes over the input's tokens; the count is that of the tokens before the end or the first fault.
//!
//! The exit status is 0, or 1 where the word is another, memory is refused, or reading or writing fails.
#![tactic(auto)]

mod failure;
mod reading;

use failure::Failure;
use reading::{items, tokens};
use std::io::Read;
use std::{env, io};

/// What is to be timed.
#[derive(Clone, Copy, Debug, PartialEq, Eq)]
enum Work {
    Read,
    Split,
    Lex,
}

/// The work that the words ask for; nothing where they are not one name of a work.
fn asked(words: &[String]) -> Option<Work> {
    let [name] = words else {
        return None;
    };
    match name.as_str() {
        "read" => Some(Work::Read),
        "split" => Some(Work::Split),
        "lex" => Some(Work::Lex),
        _ => None,
    }
}

fn command_words(rt: &HostRuntime) -> io::Result<Vec<String>> {
    Ok(env::args(rt)?.skip(1).collect(rt.alloc())?)
}

fn main(rt: HostRuntime) -> Result<(), Failure> {
    let words = command_words(&rt)?;
    let Some(work) = asked(&words) else {
        return Err(Failure::Words);
    };
    let mut text = Vec::new(rt.alloc());
    rt.reader().read_to_end(&mut text)?;
    let count = match work {
        Work::Read => text.len() as u64,
        Work::Split => items(rt.alloc(), &text)?,
        Work::Lex => tokens(&text),
    };
    println!(rt; "{count}")?;
    Ok(())
}
