//! A path beside the search's own, with all that follows and with guesses. What is guessed here is only tried, so a wrong guess costs time alone.

ghost use Rattle.std.specs.Prelude.{◌≡◌};

use crate::agenda::Signed;
use crate::growth::Growing;
use crate::refine::first_open;
use crate::seen::Seen;
use crate::spread::{Tables, spread};
use crate::task::Task;
use sc_deriv::Steps;
use sc_facts::{Fact, Path};
use sc_terms::Memory;

/// How often guesses of signs are taken back at one leaf.
const MOST_RETURNS: u32 = 64;

/// A guess of a sign, and whether it is the other one of what was guessed first.
#[derive(Clone, Copy)]
struct Guess {
    signed: Signed,
    turned: bool,
}

/// A copy of a path with what follows from it, without any limit on steps, and what was guessed.
#[derive(Drop)]
pub(crate) struct Shadow {
    pub growing: Growing,
    pub tables: Tables,
}

impl Shadow {
    /// The path with what follows from it.
    pub(crate) fn new(task: Task<'_>, path: &Path) -> Result<Shadow, Memory> {
        let growing = Growing::new(task.alloc, path.clone()?, Steps::new(task.alloc))?;
        let mut shadow = Shadow {
            growing,
            tables: Tables::new(task.alloc, task.problem)?,
        };
        shadow.follow(task)?;
        Ok(shadow)
    }

    /// What the path says.
    pub(crate) fn seen<'a>(&'a self, task: Task<'a>) -> Seen<'a>
        ensures { result.problem.now ≡ task.entry.problem.now }
    {
        Seen {
            problem: task.problem,
            fixed: task.fixed,
            path: self.growing.path(),
            said: &self.tables.said,
        }
    }

    /// Takes what follows.
    fn follow(&mut self, task: Task<'_>) -> Result<(), Memory> {
        spread(&mut self.growing, &mut self.tables, task)
    }

    /// Guesses a sign, and takes what follows; tells whether no clash came.
    fn guess(&mut self, task: Task<'_>, signed: Signed) -> Result<bool, Memory> {
        self.growing
            .assume(Fact::Sign(signed.formula, signed.sign))?;
        self.follow(task)?;
        Ok(self.growing.clash().is_none())
    }

    /// Guesses once more what was guessed; tells whether no clash came.
    fn repeat(&mut self, task: Task<'_>, guesses: &[Guess]) -> Result<bool, Memory> {
        for guess in guesses {
            if !self.guess(task, guess.signed)? {
                return Ok(false);
            }
        }
        Ok(true)
    }

    /// Guesses on, a part of the first open formula each time, until no formula is open, which is told, or a clash comes.
    fn guess_on(&mut self, task: Task<'_>, guesses: &mut Vec<Guess>) -> Result<bool, Memory> {
        let mut start = 0;
        for _ in 0..u64::MAX {
            let Some((place, signed)) = first_open(task.problem, self.growing.path(), start) else {
                return Ok(true);
            };
            start = place;
            guesses.push(Guess {
                signed,
                turned: false,
            })?;
            if !self.guess(task, signed)? {
                return Ok(false);
            }
        }
        Ok(false)
    }
}

/// Takes guesses back up to the last that was not turned, and turns it; tells whether there was one.
fn turn_last(guesses: &mut Vec<Guess>) -> Result<bool, Memory> {
    for _ in 0..guesses.len() {
        let Some(guess) = guesses.pop() else {
            return Ok(false);
        };
        if !guess.turned {
            guesses.push(Guess {
                signed: Signed {
                    formula: guess.signed.formula,
                    sign: !guess.signed.sign,
                },
                turned: true,
            })?;
            return Ok(true);
        }
    }
    Ok(false)
}

/// The path with all that follows from it, and with guesses of signs by which every formula's sign is borne out; nothing where they lead to clashes too often. Where `signs` is false no sign is guessed.
pub(crate) fn shadow_of(
    task: Task<'_>,
    path: &Path,
    signs: bool,
) -> Result<Option<Shadow>, Memory> {
    let mut guesses = Vec::new(task.alloc);
    for _ in 0..MOST_RETURNS {
        let mut shadow = Shadow::new(task, path)?;
        if shadow.growing.clash().is_some() {
            return Ok(None);
        }
        if !signs {
            return Ok(Some(shadow));
        }
        if shadow.repeat(task, guesses.as_slice())? && shadow.guess_on(task, &mut guesses)? {
            return Ok(Some(shadow));
        }
        if !turn_last(&mut guesses)? {
            return Ok(None);
        }
    }
    Ok(None)
}
