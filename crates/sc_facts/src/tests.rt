//! Tests of paths and names, with ample memory.

ghost use Rattle.std.specs.Prelude.{IfOk};
ghost use Rattle.sc_terms.specs.Literals.{IsOfLiterals};

use super::*;
use sc_terms::{
    Bases, Cube, Element, Elements, Form, Formula, Formulas, Memory, Numbers, Parts, Problem, Row,
    SetTerm, Sets, Sign, Signs, Sort, literals_make_problem,
};
use std::alloc::Global;
use std::process::Abort;
use std::test::Fail;

/// An element is to be in a set, and is not to be.
fn literals(alloc: Global) -> Result<Parts, Memory>
    ensures { IfOk result (λ parts. IsOfLiterals parts) }
{
    let mut formulas = Formulas::new(alloc);
    formulas.push(Formula::Member(1, 1))?;
    formulas.push(Formula::Not(1))?;
    let mut elements = Elements::new(alloc);
    elements.push(Element::Const(7, Sort::Named(1)))?;
    let mut components = Bases::new(alloc);
    components.push(Numbers::from_slice(alloc, &[1])?)?;
    let mut bases = Bases::new(alloc);
    bases.push(Numbers::from_slice(alloc, &[1])?)?;
    Ok(Parts {
        roots: Numbers::from_slice(alloc, &[1, 2])?,
        assertions: Numbers::from_slice(alloc, &[4, 5])?,
        formulas,
        sets: Sets::from_slice(alloc, &[SetTerm::Const(8, Sort::SetNamed(1))])?,
        elements,
        ints: Numbers::new(alloc),
        components,
        bases,
    })
}

fn contradiction(alloc: Global) -> Result<Problem, Memory> {
    literals_make_problem();
    Ok(Problem::from_parts(literals(alloc)?))
}

/// A copy of the root path, then a row, then the first root's sign again, then the second's opposite.
fn longer(alloc: Global, problem: &Problem) -> Result<Path, Memory> {
    let mut path = Path::root(alloc, problem)?;
    path.push(Fact::Row(Row {
        form: Form::zero(alloc),
        bound: -1,
    }))?;
    path.extend(&[Fact::Sign(1, true)])?;
    path.append(Facts::one(alloc, Fact::Sign(2, false))?)?;
    Ok(path.clone()?)
}

fn check_path(rt: &impl Abort, path: &Path) {
    assert!(rt; path.len() == 5);
    assert!(rt; path.root_count() == 2);
    assert!(rt; path.first_place(&Fact::Sign(2, true)) == Some(1));
    assert!(rt; path.first_place(&Fact::Sign(1, false)).is_none());
    assert!(rt; path.has_named(&FactName::Sign(2), false));
    assert!(rt; matches!(path.row(1), Some(Row { bound: -1, .. })));
    assert!(rt; path.row(2).is_none());
    assert!(rt; path.has(&path.facts()[3]));
}

/// Cut back to its roots, the path has no row, and has each root.
fn check_cut(rt: &impl Abort, path: &mut Path) {
    if path.root_count() <= 2 && 2 <= path.len() {
        path.cut_back(2);
    }
    assert!(rt; path.len() == 2);
    assert!(rt; path.row(1).is_none());
    assert!(rt; path.has(&Fact::Sign(1, true)));
}

#[test]
fn path_of_two_roots(rt: HostRuntime) -> Result<(), Fail> {
    let problem = contradiction(rt.alloc())?;
    let mut path = longer(rt.alloc(), &problem)?;
    check_path(&rt, &path);
    check_cut(&rt, &mut path);
    Ok(())
}

#[test]
fn names_with_signs(rt: HostRuntime) -> Result<(), Fail> {
    let cube = Cube {
        component: 1,
        signs: Signs::from_slice(rt.alloc(), &[Sign::Plus])?,
    };
    let name = FactName::Empty(cube);
    let facts = Facts::one(rt.alloc(), name.with_sign(false)?)?;
    assert!(&rt; facts == facts.clone()?);
    assert!(&rt; facts.len() == 1);
    assert!(&rt; matches!(&facts.as_slice()[0], Fact::Empty(_, false)));
    assert!(&rt; name == name.clone()?);
    Ok(())
}
