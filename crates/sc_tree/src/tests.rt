//! A short history, with ample memory.

ghost use Rattle.std.specs.Prelude.{◌≡◌, IfOk};
ghost use Rattle.sc_terms.specs.Literals.{IsOfLiterals};

use super::*;
use sc_terms::{
    Bases, Element, Elements, Formula, Formulas, Numbers, Parts, SetTerm, Sets, Sort,
    literals_make_problem,
};
use std::alloc::Global;
use std::process::Abort;
use std::test::Fail;

/// An element is to be in a set, and is not to be.
fn literals(alloc: Global) -> Result<Parts, Memory>
    ensures { IfOk result (λ parts. IsOfLiterals parts) }
{
    let mut formulas = Formulas::new(alloc);
    formulas.push(Formula::Member(1, 1))?;
    formulas.push(Formula::Not(1))?;
    let mut elements = Elements::new(alloc);
    elements.push(Element::Const(7, Sort::Named(1)))?;
    let mut components = Bases::new(alloc);
    components.push(Numbers::from_slice(alloc, &[1])?)?;
    let mut bases = Bases::new(alloc);
    bases.push(Numbers::from_slice(alloc, &[1])?)?;
    Ok(Parts {
        roots: Numbers::from_slice(alloc, &[1, 2])?,
        assertions: Numbers::from_slice(alloc, &[4, 5])?,
        formulas,
        sets: Sets::from_slice(alloc, &[SetTerm::Const(8, Sort::SetNamed(1))])?,
        elements,
        ints: Numbers::new(alloc),
        components,
        bases,
    })
}

fn contradiction(alloc: Global) -> Result<Problem, Memory> {
    literals_make_problem();
    Ok(Problem::from_parts(literals(alloc)?))
}

/// The number of the leaf that was handed out, and how many facts and steps came with it.
fn handed_out(reply: Reply) -> Option<(u64, usize, usize)> {
    match reply {
        Reply::Leaf { leaf, path, steps } => Some((leaf, path.len(), steps.len())),
        _ => None,
    }
}

/// The seat takes the root's leaf.
fn take_root(alloc: Global, problem: &Problem) -> Result<(Tree, Reply), Memory> {
    seats_hold_one();
    let mut tree = Tree::root(alloc, problem, 3)?;
    let reply = tree.step(problem, 1, Event::Take)?;
    Ok((tree, reply))
}

#[test]
fn root_leaf_is_handed_out(rt: HostRuntime) -> Result<(), Fail> {
    let problem = contradiction(rt.alloc())?;
    let (tree, reply) = take_root(rt.alloc(), &problem)?;
    assert_eq!(&rt; handed_out(reply), Some((1, 2, 0)));
    assert!(&rt; !tree.out_of_budget());
    Ok(())
}
