//! Programs, and what is judged of them.

use sc_linear::{LinearError, Op};
use sc_terms::{Memory, Sequence};
use std::alloc::AllocError;

/// Pairs of the number of an earlier item and a factor.
pub type Terms = Sequence<(u64, i128)>;

/// An item of a program, which gives a row.
#[derive(Drop)]
pub enum Item {
    /// The row with this number, counted from 1, of those that the program is to refute.
    Use(u64),
    /// The sum of the rows of earlier items, each times its factor, which is 0 at least; there is one at least.
    Sum(Terms),
    /// The row of an earlier item, divided by a number that is 1 at least and divides each coefficient; the bound is rounded down.
    Div(u64, i128),
}

/// Items, numbered from 1. The program refutes where the last item's row is 0 <= -1.
pub type RowProgram = Sequence<Item>;

/// What is judged of a program.
#[derive(Clone, Copy, Debug, PartialEq, Eq)]
pub enum Judged {
    /// It refutes.
    Yes,
    /// This is the first item that gives no row; or the last item, where all give rows and its row isn't 0 <= -1. It is 0 where there is no item.
    No { item: u64 },
    /// This is the first item that gives no row: the exact result of an operation on these numbers has more than 128 bits.
    Wide { item: u64, op: Op, a: i128, b: i128 },
}

/// Why an item gives no row.
#[derive(Clone, Copy, Debug, PartialEq, Eq)]
pub(crate) enum Failure {
    /// It names no row or no earlier item, or its numbers don't fit.
    Refused,
    /// A result has more than 128 bits.
    Wide { op: Op, a: i128, b: i128 },
    /// There was no memory.
    Memory,
}

impl From<LinearError> for Failure {
    ghost use Rattle.std.specs.Prelude.{◌≡◌};
    ghost use Rattle.sc_rows.specs.Programs.{failure_of};

    ghost from_gives = { λ e f. f ≡ failure_of e };

    fn from(error: LinearError) -> Failure {
        match error {
            LinearError::Wide { op, a, b } => Failure::Wide { op, a, b },
            LinearError::Memory => Failure::Memory,
        }
    }
}

impl From<Memory> for Failure {
    ghost use Rattle.std.specs.Prelude.{◌≡◌};
    ghost use Rattle.sc_rows.specs.declared.program.Failure.TheVariants as failures;

    ghost from_gives = { λ _ f. f ≡ failures.Memory };

    fn from(_error: Memory) -> Failure {
        Failure::Memory
    }
}

impl PartialEq for Item {
    ghost use Rattle.std.specs.Cmp.{partial_equiv_from_equiv, decided};
    ghost use Rattle.sc_rows.specs.Same.{same_item, same_item-Decides};

    ghost eq = { same_item };

    ghost laws = { partial_equiv_from_equiv (decided same_item same_item-Decides) };

    fn eq(&self, other: &Item) -> bool {
        match (self, other) {
            (Item::Use(m), Item::Use(n)) => m == n,
            (Item::Sum(a), Item::Sum(b)) => a == b,
            (Item::Div(m, g), Item::Div(n, h)) => m == n && g == h,
            _ => false,
        }
    }
}

impl Eq for Item {
    ghost use Rattle.std.specs.Cmp.{decided};
    ghost use Rattle.sc_rows.specs.Same.{same_item, same_item-Decides};

    ghost laws = { decided same_item same_item-Decides };
}

/// A copy is equal.
impl Clone for Item {
    ghost use Rattle.std.specs.Prelude.{◌≡◌};

    ghost is_clone = { λ a b. b ≡ a };

    fn clone(&self) -> Result<Item, AllocError> {
        match self {
            Item::Use(n) => Ok(Item::Use(*n)),
            Item::Sum(terms) => Ok(Item::Sum(terms.clone()?)),
            Item::Div(n, g) => Ok(Item::Div(*n, *g)),
        }
    }
}
