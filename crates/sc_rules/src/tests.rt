//! Tests of the steps, with ample memory.

ghost use Rattle.std.specs.Prelude.{◌≡◌, IfOk};
ghost use Rattle.sc_rules.specs.Example.{example, ExampleIsProblem};

use super::*;
use sc_facts::{Fact, FactName, Path};
use sc_terms::{
    Bases, Element, Elements, Formula, Formulas, Memory, Numbers, Parts, Problem, SetTerm, Sets,
    Sort,
};
use std::alloc::Global;
use std::process::Abort;
use std::test::Fail;

fn formulas(alloc: Global) -> Result<Formulas, Memory>
    ensures { IfOk result (λ formulas. formulas ≡ example.formulas) }
{
    let mut formulas = Formulas::new(alloc);
    formulas.push(Formula::Member(1, 1))?;
    formulas.push(Formula::Member(1, 3))?;
    formulas.push(Formula::Eq(2, 1))?;
    formulas.push(Formula::EqSet(2, 1))?;
    formulas.push(Formula::Not(2))?;
    Ok(formulas)
}

fn elements(alloc: Global) -> Result<Elements, Memory>
    ensures { IfOk result (λ elements. elements ≡ example.elements) }
{
    let mut elements = Elements::new(alloc);
    elements.push(Element::Const(21, Sort::Named(1)))?;
    elements.push(Element::Const(22, Sort::Named(1)))?;
    elements.push(Element::Const(23, Sort::Named(1)))?;
    elements.push(Element::Const(24, Sort::Named(2)))?;
    elements.push(Element::Diff(1, 2))?;
    Ok(elements)
}

fn sets(alloc: Global) -> Result<Sets, Memory>
    ensures { IfOk result (λ sets. sets ≡ example.sets) }
{
    Ok(Sets::from_slice(
        alloc,
        &[
            SetTerm::Const(11, Sort::SetNamed(1)),
            SetTerm::Const(12, Sort::SetNamed(1)),
            SetTerm::Union(1, 2),
            SetTerm::Inter(1, 2),
            SetTerm::Minus(1, 2),
            SetTerm::Single(1),
            SetTerm::Empty(Sort::SetNamed(1)),
            SetTerm::Const(13, Sort::SetNamed(2)),
        ],
    )?)
}

fn components(alloc: Global) -> Result<Bases, Memory>
    ensures { IfOk result (λ components. components ≡ example.components) }
{
    let mut components = Bases::new(alloc);
    components.push(Numbers::from_slice(alloc, &[1, 2, 3, 4, 5])?)?;
    components.push(Numbers::from_slice(alloc, &[6])?)?;
    components.push(Numbers::from_slice(alloc, &[8])?)?;
    Ok(components)
}

fn bases(alloc: Global) -> Result<Bases, Memory>
    ensures { IfOk result (λ bases. bases ≡ example.bases) }
{
    let mut bases = Bases::new(alloc);
    bases.push(Numbers::from_slice(alloc, &[1, 2])?)?;
    bases.push(Numbers::from_slice(alloc, &[6])?)?;
    bases.push(Numbers::from_slice(alloc, &[8])?)?;
    Ok(bases)
}

/// Element 1 is to be in set 1, and not in the union of sets 1 and 2. Elements 1 to 3 are of one sort, 4 of another, and 5, the differing element of sets 1 and 2. Set 3 is the union of sets 1 and 2, 4 their intersection, 5 their difference, 6 holds element 1 alone, 7 is empty, and 8 is of another sort.
fn example_parts(alloc: Global) -> Result<Parts, Memory>
    ensures { IfOk result (λ parts. parts ≡ example) }
{
    Ok(Parts {
        roots: Numbers::from_slice(alloc, &[1, 5])?,
        assertions: Numbers::from_slice(alloc, &[31, 35])?,
        formulas: formulas(alloc)?,
        sets: sets(alloc)?,
        elements: elements(alloc)?,
        ints: Numbers::new(alloc),
        components: components(alloc)?,
        bases: bases(alloc)?,
    })
}

/// The example is a problem.
#[tactic(auto, using(crate::proofs::Example::example_is_problem))]
fn example_is_problem()
    ensures { ExampleIsProblem }
{}

fn example_problem(alloc: Global) -> Result<Problem, Memory> {
    let parts = example_parts(alloc)?;
    example_is_problem();
    Ok(Problem::from_parts(parts))
}

/// Whether there is one branch with this fact alone, or two of which the first has.
fn concludes(branches: &Branches, fact: &Fact) -> bool {
    match branches {
        Branches::One(facts) => facts.len() == 1 && facts.as_slice()[0] == *fact,
        Branches::Two(first, _) => first.len() == 1 && first.as_slice()[0] == *fact,
    }
}

/// Whether the step applies and concludes the fact.
fn steps_to(alloc: Global, problem: &Problem, path: &Path, step: &PlainStep, fact: &Fact) -> bool {
    match apply(alloc, problem, path, step) {
        Ok(branches) => concludes(&branches, fact),
        Err(_) => false,
    }
}

/// Whether the step's premises have these places.
fn has_places(
    alloc: Global,
    problem: &Problem,
    path: &Path,
    step: &PlainStep,
    due: &[usize],
) -> bool {
    match premise_places(alloc, problem, path, step) {
        Ok(places) => places.as_slice() == due,
        Err(_) => false,
    }
}

/// Whether the step has one premise, this fact.
fn rests_on(alloc: Global, problem: &Problem, path: &Path, step: &PlainStep, fact: &Fact) -> bool {
    match premises(alloc, problem, path, step) {
        Ok(facts) => facts.len() == 1 && facts.as_slice()[0] == *fact,
        Err(_) => false,
    }
}

fn check_steps(rt: &impl Abort, alloc: Global, problem: &Problem, path: &Path) {
    let atom = PlainStep::Atom(1);
    assert!(rt; steps_to(alloc, problem, path, &atom, &Fact::Member(1, 1, true)));
    assert!(rt; rests_on(alloc, problem, path, &atom, &Fact::Sign(1, true)));
    assert!(rt; has_places(alloc, problem, path, &PlainStep::Unit(5, 1), &[1]));
    let cut = PlainStep::Cut(FactName::Sign(2));
    assert!(rt; steps_to(alloc, problem, path, &cut, &Fact::Sign(2, true)));
    assert!(rt; has_places(alloc, problem, path, &cut, &[]));
}

#[test]
fn steps_apply(rt: HostRuntime) -> Result<(), Fail> {
    let problem = example_problem(rt.alloc())?;
    let path = Path::root(rt.alloc(), &problem)?;
    check_steps(&rt, rt.alloc(), &problem, &path);
    Ok(())
}
