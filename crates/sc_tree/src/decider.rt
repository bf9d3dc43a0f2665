//! What decides problems.

ghost use Rattle.std.specs.Prelude.{◌≤◌, ◌^◌, IfOk};
ghost use Rattle.sc_sorts.specs.Posed.{IsPosed};
ghost use Rattle.sc_tree.specs.Verdicts.{IsJust};

use crate::verdict::Verdict;
use sc_terms::{Bank, Memory, Problem};
use std::alloc::Global;

/// What decides problems.
pub trait Decider {
    /// A just verdict on the problem, with at most `budget` steps on each branch, 1 to 2^40. The
    /// problem is that of assertions of the bank: it is well sorted, sets that it says to be equal
    /// have their differing element, which nothing names, and each constant has one node. Each
    /// root is true exactly where its assertion is, and where what an evaluation of the assertions
    /// meets fits 128 bits, so does what one of the problem meets. It has no inequality, no Int
    /// term and no card. The only error is want of memory.
    fn decide(
        &mut self,
        alloc: Global,
        problem: &Problem,
        bank: &Bank,
        budget: u64,
    ) -> Result<Verdict, Memory>
        requires posed { IsPosed problem.now bank.now }
        requires limit { (1 ≤ budget) × (budget ≤ 2 ^ 40) }
        ensures { IfOk result (IsJust problem.now budget) };
}
