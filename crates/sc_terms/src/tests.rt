//! Tests of banks, problems, interpretations and copies, with ample memory.

ghost use Rattle.std.specs.Prelude.{IfOk};
ghost use Rattle.sc_terms.specs.Bank.{IsFormulaOf, IsSetOf, IsElementOf};
ghost use Rattle.sc_terms.specs.Literals.{IsOfLiterals};

use super::*;
use std::alloc::Global;
use std::process::Abort;
use std::test::Fail;

/// The lists of a problem of one set and one element, of which the one is to be a member of the other and not to be.
fn literals(alloc: Global) -> Result<Parts, Memory>
    ensures { IfOk result (λ parts. IsOfLiterals parts) }
{
    let mut formulas = Formulas::new(alloc);
    formulas.push(Formula::Member(1, 1))?;
    formulas.push(Formula::Not(1))?;
    let mut elements = Elements::new(alloc);
    elements.push(Element::Const(7, Sort::Named(1)))?;
    let mut components = Bases::new(alloc);
    components.push(Numbers::from_slice(alloc, &[1])?)?;
    let mut bases = Bases::new(alloc);
    bases.push(Numbers::from_slice(alloc, &[1])?)?;
    Ok(Parts {
        roots: Numbers::from_slice(alloc, &[1, 2])?,
        assertions: Numbers::from_slice(alloc, &[4, 5])?,
        formulas,
        sets: Sets::from_slice(alloc, &[SetTerm::Const(8, Sort::SetNamed(1))])?,
        elements,
        ints: Numbers::new(alloc),
        components,
        bases,
    })
}

/// The problem that those lists make.
#[tactic(auto, using(crate::proofs::Small::literals_make_problem))]
fn two_literals(alloc: Global) -> Result<Problem, Memory> {
    let parts = literals(alloc)?;
    Ok(Problem::from_parts(parts))
}

/// Its nodes are found, and no others.
fn check_nodes(rt: &impl Abort, problem: &Problem) {
    assert!(rt; problem.roots().len() == 2);
    assert!(rt; matches!(problem.find_formula(2), Some(Formula::Not(1))));
    assert!(rt; problem.find_formula(3).is_none());
    assert!(rt; problem.counts().sets == 1);
    assert!(rt; problem.component_of(1) == Some(1));
    assert!(rt; problem.diff_of(1, 1).is_none());
}

#[test]
fn problem_of_two_literals(rt: HostRuntime) -> Result<(), Fail> {
    let problem = two_literals(rt.alloc())?;
    check_nodes(&rt, &problem);
    Ok(())
}

/// The first constant has a number, and the second has no value.
fn check_values(rt: &impl Abort, interp: &Interp) {
    assert!(rt; matches!(interp.get(3), Some(Value::Number(-8))));
    assert!(rt; interp.get(5).is_none());
}

#[test]
fn last_value_of_a_constant_counts(rt: HostRuntime) -> Result<(), Fail> {
    let mut interp = Interp::new(rt.alloc());
    interp.put(3, Value::Number(7))?;
    interp.put(3, Value::Number(-8))?;
    check_values(&rt, &interp);
    Ok(())
}

/// Formulas with lists and forms of each kind of atom.
fn some_formulas(alloc: Global) -> Result<Formulas, Memory> {
    let mut formulas = Formulas::new(alloc);
    formulas.push(Formula::Flag(4))?;
    formulas.push(Formula::Or(Numbers::from_slice(alloc, &[1, 1])?))?;
    formulas.push(Formula::Member(1, 2))?;
    formulas.push(Formula::Le(Row {
        form: one_term(alloc, Atom::Card(3))?,
        bound: -1,
    }))?;
    formulas.push(Formula::Le(Row {
        form: one_term(alloc, region(alloc)?)?,
        bound: i128::MIN,
    }))?;
    Ok(formulas)
}

/// Elements of each kind.
fn some_elements(alloc: Global) -> Result<Elements, Memory> {
    let mut elements = Elements::new(alloc);
    elements.push(Element::Const(2, Sort::Named(1)))?;
    elements.push(Element::Number(Affine {
        form: one_term(alloc, Atom::Int(3))?,
        constant: 7,
    }))?;
    elements.push(Element::Diff(1, 2))?;
    Ok(elements)
}

/// The size of a region as an atom.
fn region(alloc: Global) -> Result<Atom, Memory> {
    Ok(Atom::Size(Cube {
        component: 1,
        signs: Signs::from_slice(alloc, &[Sign::Plus, Sign::Minus])?,
    }))
}

/// Minus five times the atom.
fn one_term(alloc: Global, atom: Atom) -> Result<Form, Memory> {
    let mut terms = Vec::new(alloc);
    terms.push((-5, atom))?;
    Ok(Form::from_terms(terms))
}

/// Whether copies of the formulas are equal to them.
fn formulas_are_copied(formulas: &Formulas) -> Result<bool, Fail> {
    for formula in formulas.as_slice() {
        let copy = formula.clone()?;
        if copy != *formula {
            return Ok(false);
        }
    }
    Ok(true)
}

/// Whether copies of the elements are equal to them.
fn elements_are_copied(elements: &Elements) -> Result<bool, Fail> {
    for element in elements.as_slice() {
        let copy = element.clone()?;
        if copy != *element {
            return Ok(false);
        }
    }
    Ok(true)
}

#[test]
fn copies_are_equal(rt: HostRuntime) -> Result<(), Fail> {
    let formulas = some_formulas(rt.alloc())?;
    assert!(rt; formulas_are_copied(&formulas)?);
    let elements = some_elements(rt.alloc())?;
    assert!(rt; elements_are_copied(&elements)?);
    Ok(())
}

/// Each node is found by its number, and by its kind's call.
fn check_bank(rt: &impl Abort, bank: &Bank, flag: u32, element: u32, single: u32) -> bool
    requires flag { IsFormulaOf bank.now flag }
    requires element { IsElementOf bank.now element }
    requires single { IsSetOf bank.now single }
{
    assert!(rt; matches!(bank.formula_at(flag), Formula::Flag(4)));
    assert!(rt; matches!(bank.element_at(element), Element::Const(2, _)));
    matches!(bank.set_at(single), SetTerm::Single(2))
}

#[test]
fn equal_nodes_have_one_number(rt: HostRuntime) -> Result<(), Fail> {
    let mut bank = Bank::new(rt.alloc());
    let flag = bank.formula(Formula::Flag(4))?;
    let element = bank.element(Element::Const(2, Sort::Named(1)))?;
    let single = bank.set(SetTerm::Single(element))?;
    assert!(rt; (flag, element, single) == (1, 2, 3));
    let again = bank.formula(Formula::Flag(4))?;
    assert!(rt; again == flag);
    assert!(rt; check_bank(&rt, &bank, flag, element, single));
    Ok(())
}

/// Puts as many Bool constants as the bank may hold.
fn fill(bank: &mut Bank) -> Result<(), BankError> {
    for constant in 1..=LIMIT as u32 {
        bank.formula(Formula::Flag(constant))?;
    }
    Ok(())
}

#[test]
fn full_bank_takes_old_nodes_alone(rt: HostRuntime) -> Result<(), Fail> {
    let mut bank = Bank::new(rt.alloc());
    fill(&mut bank)?;
    assert!(rt; bank.len() == LIMIT);
    assert!(rt; matches!(bank.node_at(200_000), Node::Formula(Formula::Flag(200_000))));
    assert!(rt; matches!(bank.formula(Formula::Flag(7)), Ok(7)));
    assert!(rt; matches!(bank.formula(Formula::True), Err(BankError::Full)));
    Ok(())
}
