//! Steps, and their branches at a path.

ghost use Rattle.std.specs.Prelude.{◌≡◌, IfOk};
ghost use Rattle.sc_rules.specs.Members.{differ_of};
ghost use Rattle.sc_rules.specs.Members as members;
ghost use Rattle.sc_rules.specs.Steps.{cut_of, branches, Gives};
ghost use Rattle.sc_rules.specs.Steps as spec;

use crate::boolean::{all_fact, atom_fact, unit_fact};
use crate::members::{
    apart_fact, carry_fact, differing_element, equal_step_fact, from_single, into_single,
    move_fact, op_fact, reflexive_fact, set_apart_fact, set_reflexive_fact, set_step_fact,
};
use crate::pairs::ordered;
use sc_facts::{Fact, FactName, Facts, Path};
use sc_sorts::{elements_alike, may_hold, sets_alike};
use sc_terms::{Memory, Problem};
use std::alloc::{AllocError, Global};

/// A step of a derivation that needs no region tree. Formulas, elements and set terms are named by their numbers, and parts by their places from 1. Where a fact has a sign and both signs stand on the path, the plus counts. The numbers of a pair may be given in any order.
#[derive(Drop)]
pub enum PlainStep {
    /// A formula that states a membership or an equality of elements or of sets has a sign: concludes that fact with that sign.
    Atom(u32),
    /// An `and` is true, or an `or` is false: concludes the same of the part at this place.
    All(u32, u32),
    /// The other signs of a formula and its parts force the sign of the part at this place, or of the formula itself for place 0: concludes that sign. Where they force both, a plus.
    Unit(u32, u32),
    /// Two branches: the fact with this name with a plus, then with a minus.
    Cut(FactName),
    /// What is said of an element and a set term that is empty, a union, an intersection or a difference, and its arguments, forces the element's membership at this place, 0 for the set term itself, 1 and 2 for its arguments: concludes it.
    Op(u32, u32, u32),
    /// An element is said to equal the one of a set of one, or not to: concludes that it is in the set, or not.
    Single(u32, u32),
    /// An element is said to be in a set of one, or not: concludes that it equals the set's element, or not.
    Unsingle(u32, u32),
    /// The first element equals the second, and is said to be in the set, or not: concludes the same of the second.
    Carry(u32, u32, u32),
    /// Of two elements one is in the set and one is not: concludes that they differ.
    Apart(u32, u32, u32),
    /// The first set equals the second, and the element is said to be in the first, or not: concludes the same of the second.
    Move(u32, u32, u32),
    /// The element is in one of two sets and not in the other: concludes that they differ.
    SetApart(u32, u32, u32),
    /// Concludes that an element equals itself.
    EqRefl(u32),
    /// The first and the second element, and the second and the third, are said to be equal, but for one of the two pairs at most, which is said to differ: concludes that the first and the third are equal, or differ.
    EqStep(u32, u32, u32),
    /// Concludes that a set equals itself.
    SeqRefl(u32),
    /// The same as for three elements, of three sets.
    SeqStep(u32, u32, u32),
    /// Two sets differ, and the problem has their differing element. Two branches: the element is in the lower-numbered set and not in the other; then the reverse.
    Differ(u32, u32),
}

impl PartialEq for PlainStep {
    ghost use Rattle.std.specs.Cmp.{partial_equiv_from_equiv, decided};
    ghost use Rattle.sc_rules.specs.Same.{same_plain, same_plain-Decides};

    ghost eq = { same_plain };

    ghost laws = { partial_equiv_from_equiv (decided same_plain same_plain-Decides) };

    fn eq(&self, other: &PlainStep) -> bool {
        match (self, other) {
            (PlainStep::Atom(m), PlainStep::Atom(n)) => m == n,
            (PlainStep::All(m, p), PlainStep::All(n, q)) => m == n && p == q,
            (PlainStep::Unit(m, p), PlainStep::Unit(n, q)) => m == n && p == q,
            (PlainStep::Cut(a), PlainStep::Cut(b)) => a == b,
            (PlainStep::Op(k, m, p), PlainStep::Op(l, n, q)) => k == l && m == n && p == q,
            (PlainStep::Single(m, p), PlainStep::Single(n, q)) => m == n && p == q,
            (PlainStep::Unsingle(m, p), PlainStep::Unsingle(n, q)) => m == n && p == q,
            (PlainStep::Carry(k, m, p), PlainStep::Carry(l, n, q)) => k == l && m == n && p == q,
            (PlainStep::Apart(k, m, p), PlainStep::Apart(l, n, q)) => k == l && m == n && p == q,
            (PlainStep::Move(k, m, p), PlainStep::Move(l, n, q)) => k == l && m == n && p == q,
            (PlainStep::SetApart(k, m, p), PlainStep::SetApart(l, n, q)) => k == l
                && m == n
                && p == q,
            (PlainStep::EqRefl(m), PlainStep::EqRefl(n)) => m == n,
            (PlainStep::EqStep(k, m, p), PlainStep::EqStep(l, n, q)) => k == l && m == n && p == q,
            (PlainStep::SeqRefl(m), PlainStep::SeqRefl(n)) => m == n,
            (PlainStep::SeqStep(k, m, p), PlainStep::SeqStep(l, n, q)) => k == l
                && m == n
                && p == q,
            (PlainStep::Differ(m, p), PlainStep::Differ(n, q)) => m == n && p == q,
            _ => false,
        }
    }
}

impl Eq for PlainStep {
    ghost use Rattle.std.specs.Cmp.{decided};
    ghost use Rattle.sc_rules.specs.Same.{same_plain, same_plain-Decides};

    ghost laws = { decided same_plain same_plain-Decides };
}

/// A copy is equal.
impl Clone for PlainStep {
    ghost use Rattle.std.specs.Prelude.{◌≡◌};

    ghost is_clone = { λ a b. b ≡ a };

    fn clone(&self) -> Result<PlainStep, AllocError> {
        match self {
            PlainStep::Atom(n) => Ok(PlainStep::Atom(*n)),
            PlainStep::All(n, p) => Ok(PlainStep::All(*n, *p)),
            PlainStep::Unit(n, p) => Ok(PlainStep::Unit(*n, *p)),
            PlainStep::Cut(name) => Ok(PlainStep::Cut(name.clone()?)),
            PlainStep::Op(k, m, n) => Ok(PlainStep::Op(*k, *m, *n)),
            PlainStep::Single(m, n) => Ok(PlainStep::Single(*m, *n)),
            PlainStep::Unsingle(m, n) => Ok(PlainStep::Unsingle(*m, *n)),
            PlainStep::Carry(k, m, n) => Ok(PlainStep::Carry(*k, *m, *n)),
            PlainStep::Apart(k, m, n) => Ok(PlainStep::Apart(*k, *m, *n)),
            PlainStep::Move(k, m, n) => Ok(PlainStep::Move(*k, *m, *n)),
            PlainStep::SetApart(k, m, n) => Ok(PlainStep::SetApart(*k, *m, *n)),
            PlainStep::EqRefl(n) => Ok(PlainStep::EqRefl(*n)),
            PlainStep::EqStep(k, m, n) => Ok(PlainStep::EqStep(*k, *m, *n)),
            PlainStep::SeqRefl(n) => Ok(PlainStep::SeqRefl(*n)),
            PlainStep::SeqStep(k, m, n) => Ok(PlainStep::SeqStep(*k, *m, *n)),
            PlainStep::Differ(m, n) => Ok(PlainStep::Differ(*m, *n)),
        }
    }
}

/// The branches of a step, each with the facts that it concludes there.
#[derive(Drop)]
pub enum Branches {
    One(Facts),
    Two(Facts, Facts),
}

/// Why a step gives no branches.
#[derive(Clone, Copy, Debug, PartialEq, Eq, thiserror::Error)]
pub enum StepError {
    /// Its condition does not hold on the path.
    #[error("step does not apply")]
    NotApplicable,
    /// There was no memory.
    #[error("out of memory")]
    Memory,
}

impl From<Memory> for StepError {
    ghost use Rattle.std.specs.Prelude.{◌≡◌};
    ghost use Rattle.sc_rules.specs.declared.step.StepError.TheVariants as errors;

    ghost from_gives = { λ _ e. e ≡ errors.Memory };

    fn from(_: Memory) -> StepError {
        StepError::Memory
    }
}

/// The branches of a step at a path. `NotApplicable` comes exactly where the step's condition does not hold on the path, or a number that it needs names nothing of the problem, or a thing of another sort. The only other error is want of memory.
///
/// The steps on formulas are those of propositional reasoning in a tableau: unit propagation over the formulas' parts, and branching on a fact's sign. The steps on members and equalities are the rules for membership in finite sets of Bansal, Reynolds, Barrett and Tinelli (IJCAR 2016).
pub fn apply(
    alloc: Global,
    problem: &Problem,
    path: &Path,
    step: &PlainStep,
) -> Result<Branches, StepError>
    ensures { Gives result (branches problem.now path.now.facts step.now) }
{
    match step {
        PlainStep::Atom(formula) => one(alloc, atom_fact(problem, path, *formula)),
        PlainStep::All(formula, place) => one(alloc, all_fact(problem, path, *formula, *place)),
        PlainStep::Unit(formula, place) => one(alloc, unit_fact(problem, path, *formula, *place)),
        PlainStep::Cut(name) => cut(alloc, problem, name),
        PlainStep::Op(e, s, place) => one(alloc, op_fact(problem, path, *e, *s, *place)),
        PlainStep::Single(e, s) => one(alloc, into_single(problem, path, *e, *s)),
        PlainStep::Unsingle(e, s) => one(alloc, from_single(problem, path, *e, *s)),
        PlainStep::Carry(e, f, s) => one(alloc, carry_fact(path, *e, *f, *s)),
        PlainStep::Apart(e, f, s) => one(alloc, apart_fact(path, *e, *f, *s)),
        PlainStep::Move(e, s, t) => one(alloc, move_fact(path, *e, *s, *t)),
        PlainStep::SetApart(e, s, t) => one(alloc, set_apart_fact(path, *e, *s, *t)),
        PlainStep::EqRefl(e) => one(alloc, reflexive_fact(problem, *e)),
        PlainStep::EqStep(e, f, g) => one(alloc, equal_step_fact(path, *e, *f, *g)),
        PlainStep::SeqRefl(s) => one(alloc, set_reflexive_fact(problem, *s)),
        PlainStep::SeqStep(s, t, u) => one(alloc, set_step_fact(path, *s, *t, *u)),
        PlainStep::Differ(s, t) => differ(alloc, problem, path, *s, *t),
    }
}

/// The one fact that a step concludes at a path, in one branch; nothing where it does not apply or has two branches. It takes no memory, so it serves to look at what a step would bring before it is taken.
#[tactic(auto, using(crate::proofs::Alone::alone_one, crate::proofs::Alone::alone_cut, crate::proofs::Alone::alone_differ))]
pub fn conclusion(problem: &Problem, path: &Path, step: &PlainStep) -> Option<Fact>
    ensures { result ≡ spec.alone (branches problem.now path.now.facts step.now) }
{
    match step {
        PlainStep::Atom(formula) => atom_fact(problem, path, *formula),
        PlainStep::All(formula, place) => all_fact(problem, path, *formula, *place),
        PlainStep::Unit(formula, place) => unit_fact(problem, path, *formula, *place),
        PlainStep::Cut(_) => None,
        PlainStep::Op(e, s, place) => op_fact(problem, path, *e, *s, *place),
        PlainStep::Single(e, s) => into_single(problem, path, *e, *s),
        PlainStep::Unsingle(e, s) => from_single(problem, path, *e, *s),
        PlainStep::Carry(e, f, s) => carry_fact(path, *e, *f, *s),
        PlainStep::Apart(e, f, s) => apart_fact(path, *e, *f, *s),
        PlainStep::Move(e, s, t) => move_fact(path, *e, *s, *t),
        PlainStep::SetApart(e, s, t) => set_apart_fact(path, *e, *s, *t),
        PlainStep::EqRefl(e) => reflexive_fact(problem, *e),
        PlainStep::EqStep(e, f, g) => equal_step_fact(path, *e, *f, *g),
        PlainStep::SeqRefl(s) => set_reflexive_fact(problem, *s),
        PlainStep::SeqStep(s, t, u) => set_step_fact(path, *s, *t, *u),
        PlainStep::Differ(_, _) => None,
    }
}

/// One branch with one fact, where there is one.
fn one(alloc: Global, fact: Option<Fact>) -> Result<Branches, StepError>
    ensures { Gives result (spec.one fact) }
{
    match fact {
        Some(fact) => Ok(Branches::One(Facts::one(alloc, fact)?)),
        None => Err(StepError::NotApplicable),
    }
}

/// Whether it is the name of a fact on things of the problem, of matching sorts, with the numbers of a pair in order.
pub fn names_fact(problem: &Problem, name: &FactName) -> bool
    ensures { result ≡ spec.names_fact problem.now name.now }
{
    match name {
        FactName::Sign(formula) => problem.find_formula(*formula).is_some(),
        FactName::Member(e, s) => may_hold(problem, *s, *e),
        FactName::Eq(e, f) => e <= f && elements_alike(problem, *e, *f),
        FactName::EqSet(s, t) => s <= t && sets_alike(problem, *s, *t),
        FactName::Empty(_) => false,
    }
}

/// The two branches of a cut on a name, where it names a fact of the problem.
fn cut(alloc: Global, problem: &Problem, name: &FactName) -> Result<Branches, StepError>
    ensures { Gives result (cut_of problem.now name.now) }
{
    if !names_fact(problem, name) {
        return Err(StepError::NotApplicable);
    }
    let plus = Facts::one(alloc, name.with_sign(true)?)?;
    let minus = Facts::one(alloc, name.with_sign(false)?)?;
    Ok(Branches::Two(plus, minus))
}

/// The two branches of a `differ`, where both sets differ and have their differing element.
fn differ(
    alloc: Global,
    problem: &Problem,
    path: &Path,
    s: u32,
    t: u32,
) -> Result<Branches, StepError>
    ensures { Gives result (differ_of problem.now path.now.facts s t) }
{
    let Some(element) = differing_element(problem, path, s, t) else {
        return Err(StepError::NotApplicable);
    };
    let (low, high) = ordered(s, t);
    let first = tells_apart(alloc, element, low, high, true)?;
    let second = tells_apart(alloc, element, low, high, false)?;
    Ok(Branches::Two(first, second))
}

/// That an element is in the first set and not in the second, or the reverse.
fn tells_apart(
    alloc: Global,
    element: u32,
    low: u32,
    high: u32,
    sign: bool,
) -> Result<Facts, Memory>
    ensures { IfOk result (λ facts. facts ≡ members.tells_apart element (low, high) sign) }
{
    let mut facts = Facts::one(alloc, Fact::Member(element, low, sign))?;
    facts.push(Fact::Member(element, high, !sign))?;
    Ok(facts)
}
