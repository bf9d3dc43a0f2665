//! Tests of the table, with ample memory.

ghost use Rattle.std.specs.Prelude.{◌≡◌, IfOk};
ghost use Rattle.sc_terms.specs.Literals.{IsOfLiterals, singles_from};
ghost use Rattle.sc_member.specs.Memberships.{equations};

use super::*;
use sc_classes::Classes;
use sc_facts::Fact;
use sc_rules::PlainStep;
use sc_terms::{
    Bases, Element, Elements, Formulas, Memory, Numbers, Parts, Problem, SetTerm, Sets, Sort,
    literals_make_problem,
};
use std::alloc::Global;
use std::test::Fail;

/// Two components of one set each.
fn two_components(alloc: Global) -> Result<Bases, Memory>
    ensures { IfOk result (λ bases. bases ≡ singles_from 1 2) }
{
    let mut bases = Bases::new(alloc);
    bases.push(Numbers::from_slice(alloc, &[1])?)?;
    bases.push(Numbers::from_slice(alloc, &[2])?)?;
    Ok(bases)
}

/// The lists of a problem of two elements and two sets, in which nothing is asserted.
fn two_of_each(alloc: Global) -> Result<Parts, Memory>
    ensures { IfOk result (λ parts. IsOfLiterals parts) }
{
    let mut elements = Elements::new(alloc);
    elements.push(Element::Const(21, Sort::Named(1)))?;
    elements.push(Element::Const(22, Sort::Named(1)))?;
    let mut sets = Sets::new(alloc);
    sets.push(SetTerm::Const(11, Sort::SetNamed(1)))?;
    sets.push(SetTerm::Const(12, Sort::SetNamed(1)))?;
    Ok(Parts {
        roots: Numbers::new(alloc),
        assertions: Numbers::new(alloc),
        formulas: Formulas::new(alloc),
        sets,
        elements,
        ints: Numbers::new(alloc),
        components: two_components(alloc)?,
        bases: two_components(alloc)?,
    })
}

fn problem_of_two(alloc: Global) -> Result<Problem, Memory> {
    let parts = two_of_each(alloc)?;
    literals_make_problem();
    Ok(Problem::from_parts(parts))
}

/// What is forced once two sets are equal and element 1 is in the first.
#[tactic(auto, using(crate::proofs::Equations::equations_sets, crate::proofs::Equations::equations_member))]
fn forced_by_facts(
    table: &mut MemberTable,
    alloc: Global,
    problem: &Problem,
    classes: &Classes,
) -> Result<Option<PlainStep>, Memory>
    requires problem { problem.now ≡ table.old.problem }
    requires tied { classes.now.pairs ≡ equations table.old.facts }
{
    table.add(&Fact::EqSet(1, 2, true))?;
    table.add(&Fact::Member(1, 1, true))?;
    table.forced(alloc, problem, classes)
}

#[tactic(auto, using(crate::proofs::Equations::equations_roots))]
fn moved(alloc: Global, problem: &Problem) -> Result<Option<PlainStep>, Memory> {
    let classes = Classes::new(alloc, problem)?;
    let mut table = MemberTable::new(alloc, problem)?;
    forced_by_facts(&mut table, alloc, problem, &classes)
}

#[test]
fn memberships_are_moved_on(rt: HostRuntime) -> Result<(), Fail> {
    let problem = problem_of_two(rt.alloc())?;
    let found = moved(rt.alloc(), &problem)?;
    assert!(rt; found == Some(PlainStep::Move(1, 1, 2)));
    Ok(())
}
