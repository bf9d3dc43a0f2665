//! The checker.

ghost use Rattle.std.specs.Prelude.{◌≡◌, ◌≢◌, ℕ, [], ◌↔◌, IfOk};
ghost use Rattle.sc_rules.specs.Steps.{Gives};
ghost use Rattle.sc_terms.specs.Conditions.{IsProblem};
ghost use Rattle.sc_terms.specs.Values.{IsUnsatisfiable};
ghost use Rattle.sc_facts.specs.Facts.{root_facts};
ghost use Rattle.sc_deriv.specs.Acceptance as spec;
ghost use Rattle.sc_deriv.specs.Acceptance.{hypotheses_of, Closed, Fails};
ghost use Rattle.sc_deriv.specs.Spelling.{IsSpelt};
ghost use Rattle.sc_deriv.specs.Judging.{judge, judgement_on, step_outcome, IsOutcome, IsTaken};
ghost use Rattle.sc_deriv.specs.OpenPaths.{first_path};

use crate::derivation::{Closing, Derivation, Judgement, Lemma, Node, Reason, Step};
use crate::laws::{accepts_closed_trees, closed_trees_refute, refuses_first_failure};
use crate::spelling::is_ordered;
use crate::walk::Walk;
use sc_facts::{FactName, Path};
use sc_rules::{Branches, StepError, apply};
use sc_terms::{Memory, Problem, meanings_fit};
use std::alloc::Global;

/// The branches of a step at a path, each with the facts that it concludes. `NotApplicable` comes exactly where the step does not apply on the path. The only other error is want of memory.
pub fn step_branches(
    alloc: Global,
    problem: &Problem,
    path: &Path,
    step: &Step,
) -> Result<Branches, StepError>
    ensures { Gives result (spec.step_branches problem.now path.now.facts step.now) }
{
    let Step::Plain(step) = step;
    apply(alloc, problem, path, step)
}

/// Whether the name is a fact's, which stands on the path with both signs.
pub fn clashes(path: &Path, name: &FactName) -> bool
    ensures { result ≡ spec.clashes path.now.facts name.now }
{
    is_ordered(name) && path.has_named(name, true) && path.has_named(name, false)
}

/// Why a closing does not hold on a path, or nothing where it holds. `lemmas` are those that it may name, in order: `Q2` for a clash of which no two facts stand there.
pub fn closing_fault(lemmas: &[Lemma], path: &Path, closing: &Closing) -> Option<Reason>
    ensures { result ≡ spec.closing_fault (hypotheses_of lemmas.now) path.now.facts closing.now }
{
    let Closing::Clash(name) = closing;
    if clashes(path, name) {
        None
    } else {
        Some(Reason::Q2)
    }
}

/// Takes a step on the current branch, and says why it fails there.
fn take_step(
    alloc: Global,
    problem: &Problem,
    walk: &mut Walk,
    step: &Step,
) -> Result<Option<Reason>, Memory>
    requires { walk.old ≢ [] }
    ensures { IfOk result (IsOutcome (step_outcome (first_path walk.old) (spec.step_branches problem.now (first_path walk.old) step.now)) walk.old walk.new) }
{
    match step_branches(alloc, problem, walk.path(), step) {
        Ok(branches) => {
            walk.branch(branches)?;
            Ok(None)
        }
        Err(StepError::NotApplicable) => Ok(Some(Reason::Q1)),
        Err(StepError::Memory) => Err(Memory),
    }
}

/// Closes the current branch, and says why that fails.
fn take_closing(
    problem: &Problem,
    lemmas: &[Lemma],
    walk: &mut Walk,
    closing: &Closing,
) -> Result<Option<Reason>, Memory>
    requires { walk.old ≢ [] }
    ensures { IfOk result (IsTaken problem.now (hypotheses_of lemmas.now) walk.old (Node.Closing closing.now) walk.new) }
{
    let fault = closing_fault(lemmas, walk.path(), closing);
    if fault.is_none() {
        walk.close()?;
    }
    Ok(fault)
}

/// Takes one node, and says why it fails.
fn take_node(
    alloc: Global,
    problem: &Problem,
    lemmas: &[Lemma],
    walk: &mut Walk,
    node: &Node,
) -> Result<Option<Reason>, Memory>
    requires { walk.old ≢ [] }
    ensures { IfOk result (IsTaken problem.now (hypotheses_of lemmas.now) walk.old node.now walk.new) }
{
    match node {
        Node::Step(step) => take_step(alloc, problem, walk, step),
        Node::Closing(closing) => take_closing(problem, lemmas, walk, closing),
    }
}

/// Takes the nodes in order, up to the first that fails.
fn judge(
    alloc: Global,
    problem: &Problem,
    lemmas: &[Lemma],
    walk: &mut Walk,
    nodes: &[Node],
) -> Result<Judgement, Memory>
    ensures { IfOk result (λ j. j ≡ judge problem.now (hypotheses_of lemmas.now) walk.old nodes.now 0) }
{
    let mut number = 0u64;
    for node in nodes {
        number += 1;
        if walk.is_done() {
            return Ok(Judgement::Refused {
                node: number,
                reason: Reason::P6,
            });
        }
        if let Some(reason) = take_node(alloc, problem, lemmas, walk, node)? {
            return Ok(Judgement::Refused {
                node: number,
                reason,
            });
        }
    }
    if walk.is_done() {
        return Ok(Judgement::Accepted);
    }
    Ok(Judgement::Refused {
        node: number + 1,
        reason: Reason::P5,
    })
}

/// The judgement of the derivation's tree on the root path.
fn judge_roots(
    alloc: Global,
    problem: &Problem,
    derivation: &Derivation,
) -> Result<Judgement, Memory>
    ensures judgement { IfOk result (λ j. j ≡ judgement_on problem.now (hypotheses_of derivation.now.lemmas) (root_facts problem.now.roots) derivation.now.nodes) }
    ensures problem { IsProblem problem.now }
{
    let path = Path::root(alloc, problem)?;
    let mut walk = Walk::new(alloc, path);
    judge(
        alloc,
        problem,
        derivation.lemmas.as_slice(),
        &mut walk,
        derivation.nodes.as_slice(),
    )
}

/// Whether the derivation shows that no interpretation makes the problem's roots true: accepted where each step of its tree applies on its path, and each closing holds on its; else refused at the first node in preorder, counted from 1, that fails, with `Q1` for a step that does not apply and `Q2` for a clash that does not hold. Of the path only what stands behind a fork is put back when the walk returns to the fork. The only error is want of memory.
///
/// The derivation must be one that can be written down, as `is_spelt` says.
pub fn check(alloc: Global, problem: &Problem, derivation: &Derivation) -> Result<Judgement, Memory>
    requires { IsSpelt derivation.now }
    // Accepted exactly where the nodes are a closed tree.
    ensures accepted { IfOk result (λ j. (j ≡ Judgement.Accepted) ↔ Closed problem.now (hypotheses_of derivation.now.lemmas) (root_facts problem.now.roots) derivation.now.nodes) }
    // Refused exactly at the first node that fails, by a step or a closing.
    ensures refused { IfOk result (λ j. (n : ℕ) (reason : Reason) → (j ≡ Judgement.Refused n reason) ↔ Fails problem.now (hypotheses_of derivation.now.lemmas) (root_facts problem.now.roots) derivation.now.nodes n reason) }
    // Where it is accepted, no interpretation makes the roots true.
    ensures sound { IfOk result (λ j. j ≡ Judgement.Accepted → IsUnsatisfiable problem.now) }
{
    accepts_closed_trees();
    refuses_first_failure();
    closed_trees_refute();
    meanings_fit();
    judge_roots(alloc, problem, derivation)
}
