//! Tests of the checker, with ample memory.

ghost use Rattle.std.specs.Prelude.{◌≡◌, IfOk};
ghost use Rattle.sc_rules.specs.Example.{example, ExampleIsProblem};

use super::*;
use sc_terms::{
    Bases, Element, Elements, Formula, Formulas, Memory, Numbers, Parts, Problem, Sequence,
    SetTerm, Sets, Sort,
};
use std::alloc::{AllocError, Global};
use std::process::Abort;
use std::test::Fail;

fn formulas(alloc: Global) -> Result<Formulas, Memory>
    ensures { IfOk result (λ formulas. formulas ≡ example.formulas) }
{
    let mut formulas = Formulas::new(alloc);
    formulas.push(Formula::Member(1, 1))?;
    formulas.push(Formula::Member(1, 3))?;
    formulas.push(Formula::Eq(2, 1))?;
    formulas.push(Formula::EqSet(2, 1))?;
    formulas.push(Formula::Not(2))?;
    Ok(formulas)
}

fn elements(alloc: Global) -> Result<Elements, Memory>
    ensures { IfOk result (λ elements. elements ≡ example.elements) }
{
    let mut elements = Elements::new(alloc);
    elements.push(Element::Const(21, Sort::Named(1)))?;
    elements.push(Element::Const(22, Sort::Named(1)))?;
    elements.push(Element::Const(23, Sort::Named(1)))?;
    elements.push(Element::Const(24, Sort::Named(2)))?;
    elements.push(Element::Diff(1, 2))?;
    Ok(elements)
}

fn sets(alloc: Global) -> Result<Sets, Memory>
    ensures { IfOk result (λ sets. sets ≡ example.sets) }
{
    Ok(Sets::from_slice(
        alloc,
        &[
            SetTerm::Const(11, Sort::SetNamed(1)),
            SetTerm::Const(12, Sort::SetNamed(1)),
            SetTerm::Union(1, 2),
            SetTerm::Inter(1, 2),
            SetTerm::Minus(1, 2),
            SetTerm::Single(1),
            SetTerm::Empty(Sort::SetNamed(1)),
            SetTerm::Const(13, Sort::SetNamed(2)),
        ],
    )?)
}

fn components(alloc: Global) -> Result<Bases, Memory>
    ensures { IfOk result (λ components. components ≡ example.components) }
{
    let mut components = Bases::new(alloc);
    components.push(Numbers::from_slice(alloc, &[1, 2, 3, 4, 5])?)?;
    components.push(Numbers::from_slice(alloc, &[6])?)?;
    components.push(Numbers::from_slice(alloc, &[8])?)?;
    Ok(components)
}

fn bases(alloc: Global) -> Result<Bases, Memory>
    ensures { IfOk result (λ bases. bases ≡ example.bases) }
{
    let mut bases = Bases::new(alloc);
    bases.push(Numbers::from_slice(alloc, &[1, 2])?)?;
    bases.push(Numbers::from_slice(alloc, &[6])?)?;
    bases.push(Numbers::from_slice(alloc, &[8])?)?;
    Ok(bases)
}

/// Element 1 is to be in set 1, and not in the union of sets 1 and 2. Elements 1 to 3 are of one sort, 4 of another, and 5, the differing element of sets 1 and 2. Set 3 is the union of sets 1 and 2, 4 their intersection, 5 their difference, 6 holds element 1 alone, 7 is empty, and 8 is of another sort.
fn example_parts(alloc: Global) -> Result<Parts, Memory>
    ensures { IfOk result (λ parts. parts ≡ example) }
{
    Ok(Parts {
        roots: Numbers::from_slice(alloc, &[1, 5])?,
        assertions: Numbers::from_slice(alloc, &[31, 35])?,
        formulas: formulas(alloc)?,
        sets: sets(alloc)?,
        elements: elements(alloc)?,
        ints: Numbers::new(alloc),
        components: components(alloc)?,
        bases: bases(alloc)?,
    })
}

/// The example is a problem.
#[tactic(auto, using(crate::proofs::Examples::example_is_problem))]
fn example_is_problem()
    ensures { ExampleIsProblem }
{}

fn example_problem(alloc: Global) -> Result<Problem, Memory> {
    let parts = example_parts(alloc)?;
    example_is_problem();
    Ok(Problem::from_parts(parts))
}

fn plain(step: PlainStep) -> Node {
    Node::Step(Step::Plain(step))
}

/// Element 1 is in set 1, so that it is in its union with set 2.
fn clash() -> Node {
    Node::Closing(Closing::Clash(FactName::Member(1, 3)))
}

fn refused(node: u64, reason: Reason) -> Option<Judgement> {
    Some(Judgement::Refused { node, reason })
}

/// What a check says of the nodes, or nothing where they are no derivation.
fn judged(alloc: Global, problem: &Problem, nodes: Vec<Node>) -> Result<Option<Judgement>, Memory> {
    let derivation = Derivation {
        lemmas: Sequence::new(alloc),
        nodes: Sequence::from_vec(nodes),
    };
    if !is_spelt(&derivation) {
        return Ok(None);
    }
    Ok(Some(check(alloc, problem, &derivation.clone()?)?))
}

/// Adds what refutes the problem on every path: three steps to the memberships of element 1, one by the operator, and the clash.
fn push_refutation(nodes: &mut Vec<Node>) -> Result<(), Memory> {
    nodes
        .push(plain(PlainStep::Atom(1)))
        .map_err(AllocError::from)?;
    nodes
        .push(plain(PlainStep::Unit(5, 1)))
        .map_err(AllocError::from)?;
    nodes
        .push(plain(PlainStep::Atom(2)))
        .map_err(AllocError::from)?;
    nodes
        .push(plain(PlainStep::Op(1, 3, 0)))
        .map_err(AllocError::from)?;
    nodes.push(clash()).map_err(AllocError::from)?;
    Ok(())
}

fn check_chains(rt: &impl Abort, alloc: Global, problem: &Problem) -> Result<(), Fail> {
    let mut chain = Vec::new(alloc);
    push_refutation(&mut chain)?;
    assert_eq!(rt; judged(alloc, problem, chain)?, Some(Judgement::Accepted));
    let one_sign = vec![in alloc; plain(PlainStep::Atom(1)), clash()]?;
    assert_eq!(rt; judged(alloc, problem, one_sign)?, refused(2, Reason::Q2));
    let stuck = vec![in alloc; plain(PlainStep::Atom(2)), clash()]?;
    assert_eq!(rt; judged(alloc, problem, stuck)?, refused(1, Reason::Q1));
    let left_over = vec![in alloc; clash(), clash()]?;
    assert_eq!(rt; judged(alloc, problem, left_over)?, None);
    Ok(())
}

/// A cut on the equality of sets 1 and 2, and where they differ, on which has their differing element.
fn check_fork(rt: &impl Abort, alloc: Global, problem: &Problem) -> Result<(), Fail> {
    let mut fork = vec![in alloc; plain(PlainStep::Cut(FactName::EqSet(1, 2)))]?;
    push_refutation(&mut fork)?;
    fork.push(plain(PlainStep::Differ(2, 1)))
        .map_err(AllocError::from)?;
    push_refutation(&mut fork)?;
    push_refutation(&mut fork)?;
    assert_eq!(rt; judged(alloc, problem, fork)?, Some(Judgement::Accepted));
    Ok(())
}

/// A `differ` where the sets are not known to differ, and one with one branch.
fn check_refused_forks(rt: &impl Abort, alloc: Global, problem: &Problem) -> Result<(), Fail> {
    let early = vec![in alloc; plain(PlainStep::Differ(1, 2)), clash(), clash()]?;
    assert_eq!(rt; judged(alloc, problem, early)?, refused(1, Reason::Q1));
    let half = vec![in alloc; plain(PlainStep::Differ(1, 2)), clash()]?;
    assert_eq!(rt; judged(alloc, problem, half)?, None);
    let second = vec![in alloc;
        plain(PlainStep::Cut(FactName::EqSet(1, 2))),
        clash(),
        plain(PlainStep::EqRefl(6)),
        clash(),
    ]?;
    assert_eq!(rt; judged(alloc, problem, second)?, refused(2, Reason::Q2));
    Ok(())
}

#[test]
fn trees_of_set_steps(rt: HostRuntime) -> Result<(), Fail> {
    let problem = example_problem(rt.alloc())?;
    check_chains(&rt, rt.alloc(), &problem)?;
    check_fork(&rt, rt.alloc(), &problem)?;
    check_refused_forks(&rt, rt.alloc(), &problem)
}
