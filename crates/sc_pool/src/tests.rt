//! A test of pools, with ample memory.

ghost use Rattle.std.specs.Prelude.{IfOk};
ghost use Rattle.sc_terms.specs.Literals.{IsOfLiterals};

use super::*;
use sc_facts::{Fact, Facts, Path};
use sc_terms::{
    Bases, Element, Elements, Formula, Formulas, Memory, Numbers, Parts, Problem, SetTerm, Sets,
    Sort, literals_make_problem,
};
use std::alloc::Global;
use std::process::Abort;
use std::test::Fail;

/// An element is to be in a set, and is not to be.
fn literals(alloc: Global) -> Result<Parts, Memory>
    ensures { IfOk result (λ parts. IsOfLiterals parts) }
{
    let mut formulas = Formulas::new(alloc);
    formulas.push(Formula::Member(1, 1))?;
    formulas.push(Formula::Not(1))?;
    let mut elements = Elements::new(alloc);
    elements.push(Element::Const(7, Sort::Named(1)))?;
    let mut components = Bases::new(alloc);
    components.push(Numbers::from_slice(alloc, &[1])?)?;
    let mut bases = Bases::new(alloc);
    bases.push(Numbers::from_slice(alloc, &[1])?)?;
    Ok(Parts {
        roots: Numbers::from_slice(alloc, &[1, 2])?,
        assertions: Numbers::from_slice(alloc, &[4, 5])?,
        formulas,
        sets: Sets::from_slice(alloc, &[SetTerm::Const(8, Sort::SetNamed(1))])?,
        elements,
        ints: Numbers::new(alloc),
        components,
        bases,
    })
}

/// The path on which two signs are true.
fn root_path(alloc: Global) -> Result<Path, Memory> {
    literals_make_problem();
    Path::root(alloc, &Problem::from_parts(literals(alloc)?))
}

/// Adds a lemma with these signs as its hypotheses.
fn add_signs(alloc: Global, pool: &mut Pool, signs: &[(u32, bool)]) -> Result<u64, Memory> {
    let mut hypotheses = Facts::new(alloc);
    for (formula, sign) in signs {
        match hypotheses.push(Fact::Sign(*formula, *sign)) {
            Ok(()) => {}
            Err(e) => return Err(e),
        }
    }
    pool.add(hypotheses)
}

/// The first lemma lacks a fact; the second and the fourth apply, and end with the same fact; the fifth has no hypotheses.
fn check_pool(rt: &impl Abort, alloc: Global, pool: &mut Pool, path: &Path) -> Result<(), Memory> {
    add_signs(alloc, pool, &[(3, true), (2, true)])?;
    assert!(rt; pool.applies(path).is_none());
    add_signs(alloc, pool, &[(1, true), (2, true)])?;
    add_signs(alloc, pool, &[(1, false)])?;
    let fourth = add_signs(alloc, pool, &[(2, true)])?;
    assert!(rt; fourth == 4);
    assert!(rt; pool.applies(path) == Some(2));
    add_signs(alloc, pool, &[])?;
    assert!(rt; pool.applies(path) == Some(2));
    assert!(rt; pool.len() == 5);
    Ok(())
}

#[test]
fn the_least_lemma_applies(rt: HostRuntime) -> Result<(), Fail> {
    let path = root_path(rt.alloc())?;
    let mut pool = Pool::new(rt.alloc());
    check_pool(&rt, rt.alloc(), &mut pool, &path)?;
    Ok(())
}
