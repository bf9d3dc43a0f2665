//! Deciding with one worker.

ghost use Rattle.std.specs.Prelude.{◌≡◌, ◌≤◌, ◌^◌, ◌&&◌, true, IfOk, OnOk};
ghost use Rattle.sc_sorts.specs.Posed.{IsPosed};
ghost use Rattle.sc_tree.specs.Machine.{state, has_answer};
ghost use Rattle.sc_tree.specs.Verdicts.{IsJust};
ghost use Rattle.sc_workers.specs.Seats as spec;
ghost use Rattle.sc_workers.specs.Seats.{IsOf, IsIdle, IsBusy, IsAsked};

use sc_branch::Branch;
use sc_terms::{Bank, Memory, Problem};
use sc_tree::{Decider, Event, Reply, Tree, Verdict, leaves_are_tried};
use std::alloc::Global;

/// The number of the one seat.
const SEAT: u32 = 1;

/// Whether the event lets the leaf grow, which the seat then still holds.
fn is_growth(event: &Event) -> bool
    ensures { result ≡ spec.is_growth event.now }
{
    matches!(event, Event::Grow(_))
}

/// Whether a leaf is still held after an event that was answered so.
fn is_still_held(growth: bool, reply: &Reply) -> bool
    ensures { result ≡ (growth && spec.is_done reply.now) }
{
    growth && matches!(reply, Reply::Done)
}

/// Asks for one event at the leaf that the seat holds, and tells whether the seat still holds it.
fn ask(
    problem: &Problem,
    bank: &Bank,
    budget: u64,
    tree: &mut Tree,
    branch: &mut Branch,
) -> Result<bool, Memory>
    requires posed { IsPosed problem.now bank.now }
    requires about { IsOf problem.now budget tree.old }
    requires busy { IsBusy tree.old branch.old }
    ensures about { OnOk result (IsOf problem.now budget tree.new) }
    ensures asked { IfOk result (λ held. IsAsked tree.new branch.old branch.new held) }
    ensures same { OnOk result (branch.new.problem ≡ branch.old.problem) }
{
    leaves_are_tried();
    let _legal = tree.len();
    let event = branch.advance(problem, bank, budget)?;
    let growth = is_growth(&event);
    let reply = tree.step(problem, SEAT, event)?;
    Ok(is_still_held(growth, &reply))
}

/// Goes on with the leaf that the seat holds until it is given up: the path has no more steps than the budget, and each event but the last adds one.
fn work(
    problem: &Problem,
    bank: &Bank,
    budget: u64,
    tree: &mut Tree,
    branch: &mut Branch,
) -> Result<(), Memory>
    requires posed { IsPosed problem.now bank.now }
    requires limit { budget ≤ 2 ^ 40 }
    requires about { IsOf problem.now budget tree.old }
    requires busy { IsBusy tree.old branch.old }
    ensures about { OnOk result (IsOf problem.now budget tree.new) }
    ensures idle { OnOk result (IsIdle tree.new) }
    ensures same { OnOk result (branch.new.problem ≡ branch.old.problem) }
{
    for turn in 0..budget + 1 {
        if !ask(problem, bank, budget, tree, branch)? {
            return Ok(());
        }
    }
    unreachable!()
}

/// Goes over to one leaf after another and goes on with each, until the tree has its answer.
fn go_on(
    problem: &Problem,
    bank: &Bank,
    budget: u64,
    tree: &mut Tree,
    branch: &mut Branch,
) -> Result<(), Memory>
    requires posed { IsPosed problem.now bank.now }
    requires limit { budget ≤ 2 ^ 40 }
    requires about { IsOf problem.now budget tree.old }
    requires idle { IsIdle tree.old }
    requires same { branch.old.problem ≡ problem.now }
    ensures about { OnOk result (IsOf problem.now budget tree.new) }
    ensures answer { OnOk result (has_answer (state tree.new) ≡ true) }
{
    leaves_are_tried();
    for turn in 0..u64::MAX {
        match tree.step(problem, SEAT, Event::Take)? {
            Reply::Leaf { path, steps, .. } => {
                branch.change(problem, path, steps)?;
                work(problem, bank, budget, tree, branch)?;
            }
            Reply::Over => return Ok(()),
            Reply::Done => unreachable!(),
            Reply::Idle => unreachable!(),
        }
    }
    Err(Memory)
}

/// Takes leaves and goes on with them until the tree has its answer.
fn search(
    alloc: Global,
    problem: &Problem,
    bank: &Bank,
    budget: u64,
    tree: &mut Tree,
) -> Result<(), Memory>
    requires posed { IsPosed problem.now bank.now }
    requires limit { budget ≤ 2 ^ 40 }
    requires about { IsOf problem.now budget tree.old }
    requires idle { IsIdle tree.old }
    ensures about { OnOk result (IsOf problem.now budget tree.new) }
    ensures answer { OnOk result (has_answer (state tree.new) ≡ true) }
{
    leaves_are_tried();
    match tree.step(problem, SEAT, Event::Take)? {
        Reply::Leaf { path, steps, .. } => {
            let mut branch = Branch::from_path(alloc, problem, path, steps)?;
            work(problem, bank, budget, tree, &mut branch)?;
            go_on(problem, bank, budget, tree, &mut branch)
        }
        Reply::Over => Ok(()),
        Reply::Done => unreachable!(),
        Reply::Idle => unreachable!(),
    }
}

/// A just verdict on a well-sorted problem of sets without inequalities, Int terms and cards, which is that of assertions of the bank, with at most `budget` steps on each branch, 1 to 2^40: values that make the problem true, a derivation that refutes it, or a tree each of whose branches that isn't closed has spent its budget on different steps or shows a number past 128 bits. The only error is want of memory.
///
/// The search is that of Davis, Logemann and Loveland, "A Machine Program for Theorem-Proving" (1962), on formulas rather than clauses: signs spread to parts and from parts to formulas, and cuts on a formula's sign where they spread no further.
pub fn decide_alone(
    alloc: Global,
    problem: &Problem,
    bank: &Bank,
    budget: u64,
) -> Result<Verdict, Memory>
    requires posed { IsPosed problem.now bank.now }
    requires limit { budget ≤ 2 ^ 40 }
    ensures { IfOk result (IsJust problem.now budget) }
{
    let mut tree = Tree::root(alloc, problem, budget)?;
    search(alloc, problem, bank, budget, &mut tree)?;
    match tree.verdict(problem)? {
        Some(verdict) => Ok(verdict),
        None => unreachable!(),
    }
}

/// The one worker that decides problems by itself.
#[derive(Drop)]
pub struct Alone;

impl Decider for Alone {
    fn decide(
        &mut self,
        alloc: Global,
        problem: &Problem,
        bank: &Bank,
        budget: u64,
    ) -> Result<Verdict, Memory> {
        decide_alone(alloc, problem, bank, budget)
    }
}
