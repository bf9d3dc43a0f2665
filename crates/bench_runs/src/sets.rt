//! Two sets of many runs, and work on them.

ghost use Rattle.std.specs.Prelude.{◌<◌, ◌+◌, ◌^◌};

use crate::failure::Failure;
use sc_runs::{Memory, Runs};
use std::alloc::Global;

/// From one run's first number to the next one's.
const STRIDE: i128 = 1_200_000;

/// How many numbers a run of the first set has.
const WIDTH: i128 = 600_000;

/// How far each run of the second set begins behind one of the first, which it overlaps.
const SHIFT: i128 = 400_000;

/// How many places are asked for.
const PLACES: u128 = 1_000;

/// The run with this number, from 0, of the first set, or of the second one.
fn run(alloc: Global, number: u32, is_second: bool) -> Result<Runs, Memory> {
    let low = i128::from(number) * STRIDE + if is_second { SHIFT } else { 0 };
    Runs::span(alloc, low, low + (WIDTH - 1))
}

/// So many runs from a number on, of the first set or of the second one: the union of one half with the other. The recursion is as deep as the logarithm of the count.
fn comb(alloc: Global, first: u32, count: u32, is_second: bool) -> Result<Runs, Memory>
    requires { first + count < 2 ^ 32 }
{
    match count {
        0 => Ok(Runs::empty(alloc)),
        1 => run(alloc, first, is_second),
        _ => {
            let half = count / 2;
            let front = comb(alloc, first, half, is_second)?;
            let back = comb(alloc, first + half, count - half, is_second)?;
            front.union(&back)
        }
    }
}

/// Two sets of as many runs, of which each run of the one overlaps one of the other.
#[derive(Drop)]
pub struct Pair {
    first: Runs,
    second: Runs,
}

impl Pair {
    /// The sets of so many runs.
    pub fn of(alloc: Global, count: u32) -> Result<Pair, Memory> {
        Ok(Pair {
            first: comb(alloc, 0, count, false)?,
            second: comb(alloc, 0, count, true)?,
        })
    }

    /// How many numbers each of the sets has.
    pub fn sizes(&self) -> Result<(u128, u128), Failure> {
        Ok((self.first.card()?, self.second.card()?))
    }

    /// How many numbers the union, the intersection and the difference of the sets have.
    pub fn combined(&self) -> Result<(u128, u128, u128), Failure> {
        let union = self.first.union(&self.second)?;
        let inter = self.first.inter(&self.second)?;
        let minus = self.first.minus(&self.second)?;
        Ok((union.card()?, inter.card()?, minus.card()?))
    }

    /// How many of so many numbers are in the first set: of its runs in order, the last number of every second one, and of the others the number behind the last.
    pub fn found(&self, count: u32) -> usize {
        (0..count)
            .filter(|number| {
                let past = i128::from(*number) * STRIDE + WIDTH;
                self.first.has(past - i128::from(*number % 2))
            })
            .count()
    }

    /// At how many of 1,000 places that are spread over the first set there is a number.
    pub fn placed(&self) -> Result<usize, Failure> {
        let step = self.first.card()? / PLACES;
        Ok(
            (0..PLACES)
                .filter(|place| self.first.nth(place.saturating_mul(step)).is_some())
                .count(),
        )
    }
}
