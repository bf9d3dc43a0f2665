//! Tests of programs, with ample memory.

ghost use Rattle.std.specs.Prelude.{IfOk};
ghost use Rattle.sc_terms.specs.Literals.{IsOfLiterals};

use super::*;
use sc_facts::{Fact, Path};
use sc_linear::{Op, single};
use sc_terms::{
    Atom, Bases, Element, Elements, Formula, Formulas, Memory, Numbers, Parts, Problem, Row,
    SetTerm, Sets, Sort, literals_make_problem,
};
use std::alloc::Global;
use std::process::Abort;
use std::test::Fail;

/// That twice an integer is 1, and that 0 is at most 2^127 - 1.
fn odd_rows(alloc: Global) -> Result<Vec<Row>, Memory> {
    let mut rows = Vec::new(alloc);
    rows.push(single(alloc, 2, Atom::Int(1), 1)?)?;
    rows.push(single(alloc, -2, Atom::Int(1), -1)?)?;
    rows.push(single(alloc, 0, Atom::Int(1), i128::MAX)?)?;
    Ok(rows)
}

/// Uses of the three rows, and then this item.
fn ended_by(alloc: Global, item: Item) -> Result<RowProgram, Memory> {
    let mut program = RowProgram::new(alloc);
    program.push(Item::Use(1))?;
    program.push(Item::Use(2))?;
    program.push(Item::Use(3))?;
    program.push(item)?;
    Ok(program)
}

/// What is judged of a program over those rows.
fn over_odds(alloc: Global, program: &RowProgram) -> Result<Judged, Memory> {
    let rows = odd_rows(alloc)?;
    refutes_rows(alloc, rows.as_slice(), program)
}

/// What is judged where the fourth item is this one.
fn fourth(alloc: Global, item: Item) -> Result<Judged, Memory> {
    over_odds(alloc, &ended_by(alloc, item)?)
}

/// What is judged where the fourth item is a sum.
fn fourth_sum(alloc: Global, terms: &[(u64, i128)]) -> Result<Judged, Memory> {
    fourth(alloc, Item::Sum(Terms::from_slice(alloc, terms)?))
}

#[test]
fn items_that_give_no_row(rt: HostRuntime) -> Result<(), Fail> {
    let alloc = rt.alloc();
    let none = Judged::No { item: 4 };
    assert!(&rt; fourth(alloc, Item::Use(0))? == none);
    assert!(&rt; fourth(alloc, Item::Use(4))? == none);
    assert!(&rt; fourth(alloc, Item::Div(1, 0))? == none);
    assert!(&rt; fourth(alloc, Item::Div(1, 4))? == none);
    assert!(&rt; over_odds(alloc, &RowProgram::new(alloc))? == Judged::No { item: 0 });
    Ok(())
}

#[test]
fn sums_that_give_no_row(rt: HostRuntime) -> Result<(), Fail> {
    let alloc = rt.alloc();
    let none = Judged::No { item: 4 };
    assert!(&rt; fourth_sum(alloc, &[])? == none);
    assert!(&rt; fourth_sum(alloc, &[(1, -1)])? == none);
    assert!(&rt; fourth_sum(alloc, &[(1, 1), (4, 1)])? == none);
    assert!(&rt; fourth_sum(alloc, &[(1, 1), (2, 1)])? == none);
    Ok(())
}

/// Terms are taken from left to right: what comes first is named.
#[test]
fn sums_that_are_too_wide(rt: HostRuntime) -> Result<(), Fail> {
    let alloc = rt.alloc();
    let wide = Judged::Wide {
        item: 4,
        op: Op::Multiply,
        a: 2,
        b: i128::MAX,
    };
    assert!(&rt; fourth_sum(alloc, &[(3, 2), (9, 1)])? == wide);
    assert!(&rt; fourth_sum(alloc, &[(9, 1), (3, 2)])? == Judged::No { item: 4 });
    Ok(())
}

/// Each of the first two rows divided, and the sum of the quotients.
fn quotients(alloc: Global, divisor: i128) -> Result<RowProgram, Memory> {
    let mut program = RowProgram::new(alloc);
    program.push(Item::Use(1))?;
    program.push(Item::Div(1, divisor))?;
    program.push(Item::Use(2))?;
    program.push(Item::Div(3, divisor))?;
    program.push(Item::Sum(Terms::from_slice(alloc, &[(2, 1), (4, 1)])?))?;
    Ok(program)
}

/// What is judged of that over the rows.
fn divided(alloc: Global, divisor: i128) -> Result<Judged, Memory> {
    over_odds(alloc, &quotients(alloc, divisor)?)
}

#[test]
fn rows_are_halved(rt: HostRuntime) -> Result<(), Fail> {
    let alloc = rt.alloc();
    assert!(&rt; divided(alloc, 2)? == Judged::Yes);
    assert!(&rt; divided(alloc, 4)? == Judged::No { item: 2 });
    Ok(())
}

/// An element is to be in a set, and is not to be.
fn literals(alloc: Global) -> Result<Parts, Memory>
    ensures { IfOk result (λ parts. IsOfLiterals parts) }
{
    let mut formulas = Formulas::new(alloc);
    formulas.push(Formula::Member(1, 1))?;
    formulas.push(Formula::Not(1))?;
    let mut elements = Elements::new(alloc);
    elements.push(Element::Const(7, Sort::Named(1)))?;
    let mut components = Bases::new(alloc);
    components.push(Numbers::from_slice(alloc, &[1])?)?;
    let mut bases = Bases::new(alloc);
    bases.push(Numbers::from_slice(alloc, &[1])?)?;
    Ok(Parts {
        roots: Numbers::from_slice(alloc, &[1, 2])?,
        assertions: Numbers::from_slice(alloc, &[4, 5])?,
        formulas,
        sets: Sets::from_slice(alloc, &[SetTerm::Const(8, Sort::SetNamed(1))])?,
        elements,
        ints: Numbers::new(alloc),
        components,
        bases,
    })
}

fn contradiction(alloc: Global) -> Result<Problem, Memory> {
    literals_make_problem();
    Ok(Problem::from_parts(literals(alloc)?))
}

/// A path with two rows behind its roots, and the first root between them.
fn path_of(alloc: Global, problem: &Problem) -> Result<Path, Memory> {
    let mut path = Path::root(alloc, problem)?;
    path.push(Fact::Row(single(alloc, 2, Atom::Int(1), 1)?))?;
    path.push(Fact::Sign(1, true))?;
    path.push(Fact::Row(single(alloc, -2, Atom::Int(1), -1)?))?;
    Ok(path)
}

/// What is judged of the quotients over a path.
fn on_path(alloc: Global, path: &Path) -> Result<Judged, Memory> {
    refutes(alloc, path, &quotients(alloc, 2)?)
}

#[test]
fn rows_of_a_path_are_named(rt: HostRuntime) -> Result<(), Fail> {
    let problem = contradiction(rt.alloc())?;
    let path = path_of(rt.alloc(), &problem)?;
    assert!(&rt; on_path(rt.alloc(), &path)? == Judged::Yes);
    Ok(())
}

/// Whether a copy of a program is equal to it, and other programs aren't.
fn copies_are_equal(alloc: Global) -> Result<bool, Memory> {
    let program = quotients(alloc, 2)?;
    let copy = program.clone()?;
    Ok(program == copy && program != quotients(alloc, 3)?)
}

#[test]
fn programs_are_compared(rt: HostRuntime) -> Result<(), Fail> {
    assert!(&rt; copies_are_equal(rt.alloc())?);
    Ok(())
}
