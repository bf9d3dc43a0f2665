//! Tests of sorts, with ample memory.

ghost use Rattle.std.specs.Prelude.{IfOk};
ghost use Rattle.sc_terms.specs.Literals.{IsOfLiterals};

use super::*;
use sc_terms::{
    Bases, Element, Elements, Formulas, Memory, Numbers, Parts, Problem, SetTerm, Sets, Sort,
    literals_make_problem,
};
use std::alloc::Global;
use std::process::Abort;
use std::test::Fail;

/// The lists of a problem of three sets of different sorts and three elements, in which nothing is asserted.
fn three_sorts(alloc: Global) -> Result<Parts, Memory>
    ensures { IfOk result (λ parts. IsOfLiterals parts) }
{
    let mut elements = Elements::new(alloc);
    elements.push(Element::Const(7, Sort::Named(1)))?;
    elements.push(Element::Const(8, Sort::Named(2)))?;
    elements.push(Element::Const(9, Sort::Named(1)))?;
    let mut components = Bases::new(alloc);
    components.push(Numbers::from_slice(alloc, &[1])?)?;
    components.push(Numbers::from_slice(alloc, &[2])?)?;
    components.push(Numbers::from_slice(alloc, &[3])?)?;
    let mut bases = Bases::new(alloc);
    bases.push(Numbers::from_slice(alloc, &[1])?)?;
    bases.push(Numbers::from_slice(alloc, &[2])?)?;
    bases.push(Numbers::from_slice(alloc, &[3])?)?;
    Ok(Parts {
        roots: Numbers::new(alloc),
        assertions: Numbers::new(alloc),
        formulas: Formulas::new(alloc),
        sets: Sets::from_slice(
            alloc,
            &[
                SetTerm::Const(4, Sort::SetNamed(1)),
                SetTerm::Const(5, Sort::SetInt),
                SetTerm::Const(6, Sort::Bool),
            ],
        )?,
        elements,
        ints: Numbers::new(alloc),
        components,
        bases,
    })
}

/// The problem that those lists make.
fn problem_of_three(alloc: Global) -> Result<Problem, Memory> {
    let parts = three_sorts(alloc)?;
    literals_make_problem();
    Ok(Problem::from_parts(parts))
}

/// A set, and the sort of its members.
const MEMBERS: &[(u32, Option<Sort>)] = &[
    (0, None),
    (1, Some(Sort::Named(1))),
    (2, Some(Sort::Int)),
    (3, None),
    (4, None),
];

/// A set, an element, and whether it may hold it.
const HELD: &[(u32, u32, bool)] = &[
    (1, 1, true),
    (1, 2, false),
    (1, 3, true),
    (2, 1, false),
    (3, 1, false),
    (4, 4, false),
];

/// The sorts of the tables are found.
fn check_tables(rt: &impl Abort, problem: &Problem) {
    for (set, sort) in MEMBERS {
        assert!(rt; members_sort(problem, *set) == *sort);
    }
    for (set, element, held) in HELD {
        assert!(rt; may_hold(problem, *set, *element) == *held);
    }
}

#[test]
fn sorts_of_tables(rt: HostRuntime) -> Result<(), Fail> {
    let problem = problem_of_three(rt.alloc())?;
    check_tables(&rt, &problem);
    assert!(&rt; element_sort(&problem, 2) == Some(Sort::Named(2)));
    assert!(&rt; elements_alike(&problem, 1, 3) && !elements_alike(&problem, 1, 2));
    assert!(&rt;
        sets_alike(&problem, 1, 1) && !sets_alike(&problem, 1, 2) && !sets_alike(&problem, 3, 3)
    );
    Ok(())
}
