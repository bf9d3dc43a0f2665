//! Tests of the classes, with ample memory.

ghost use Rattle.std.specs.Prelude.{IfOk};
ghost use Rattle.sc_terms.specs.Literals.{IsOfLiterals};

use super::*;
use sc_rules::PlainStep;
use sc_terms::{
    Bases, Element, Elements, Formulas, Memory, Numbers, Parts, Problem, Sets, Sort,
    literals_make_problem,
};
use std::alloc::Global;
use std::test::Fail;

/// The lists of a problem of five elements, in which nothing is asserted.
fn five_elements(alloc: Global) -> Result<Parts, Memory>
    ensures { IfOk result (λ parts. IsOfLiterals parts) }
{
    let mut elements = Elements::new(alloc);
    elements.push(Element::Const(1, Sort::Named(1)))?;
    elements.push(Element::Const(2, Sort::Named(1)))?;
    elements.push(Element::Const(3, Sort::Named(1)))?;
    elements.push(Element::Const(4, Sort::Named(1)))?;
    elements.push(Element::Const(5, Sort::Named(1)))?;
    Ok(Parts {
        roots: Numbers::new(alloc),
        assertions: Numbers::new(alloc),
        formulas: Formulas::new(alloc),
        sets: Sets::new(alloc),
        elements,
        ints: Numbers::new(alloc),
        components: Bases::new(alloc),
        bases: Bases::new(alloc),
    })
}

/// The problem that those lists make.
fn problem_of_five(alloc: Global) -> Result<Problem, Memory> {
    let parts = five_elements(alloc)?;
    literals_make_problem();
    Ok(Problem::from_parts(parts))
}

/// Whether the explanation has so many steps, of which this is the last.
fn explained(
    alloc: Global,
    classes: &Classes,
    e: u32,
    f: u32,
    count: usize,
    last: &PlainStep,
) -> bool {
    let within = 0 < e && e <= classes.count() && 0 < f && f <= classes.count();
    if !within || classes.label(e) != classes.label(f) {
        return false;
    }
    match classes.explain(alloc, e, f) {
        Ok(steps) => {
            steps.len() == count && matches!(steps.as_slice().last(), Some(step) if step == last)
        }
        Err(_) => false,
    }
}

/// Whether elements 2 and 5 come to one class by way of 4, whose explanations go along the chain.
fn joins(alloc: Global, problem: &Problem) -> Result<bool, Memory> {
    let mut classes = Classes::new(alloc, problem)?;
    if classes.count() < 5 {
        return Ok(false);
    }
    classes.merge(4, 5, 0)?;
    classes.merge(2, 4, 1)?;
    let whole = explained(alloc, &classes, 5, 2, 1, &PlainStep::EqStep(5, 4, 2));
    Ok(whole && explained(alloc, &classes, 1, 1, 1, &PlainStep::EqRefl(1)))
}

#[test]
fn classes_of_five(rt: HostRuntime) -> Result<(), Fail> {
    let problem = problem_of_five(rt.alloc())?;
    assert!(rt; joins(rt.alloc(), &problem)?);
    Ok(())
}
