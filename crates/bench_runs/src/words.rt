//! The words of the command line.

/// What is to be timed.
#[derive(Clone, Copy, Debug, PartialEq, Eq)]
pub enum Work {
    Build,
    Combine,
    Has,
    Nth,
    Chain,
}

/// The work of this name.
fn work_of(name: &str) -> Option<Work> {
    match name {
        "build" => Some(Work::Build),
        "combine" => Some(Work::Combine),
        "has" => Some(Work::Has),
        "nth" => Some(Work::Nth),
        "chain" => Some(Work::Chain),
        _ => None,
    }
}

/// The work that the words ask for, and how large it is; nothing where they are not two, a work's name and a number below 2^32.
pub fn asked(words: &[String]) -> Option<(Work, u32)> {
    let [name, count] = words else {
        return None;
    };
    let work = work_of(name.as_str())?;
    let count = count.parse::<u32>().ok()?;
    Some((work, count))
}
