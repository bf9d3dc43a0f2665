//! The problem of a list of assertions.

ghost use Rattle.std.specs.Prelude.{◌≡◌, IfOk};
ghost use Rattle.sc_flatten.specs.Stock.{problem_by, stock};
ghost use Rattle.sc_flatten.specs.Tables.{numbering, IsReady};
ghost use Rattle.sc_flatten.specs.Laws.{AreFormulasOf};

use crate::components::{bases, components};
use crate::diffs::add_diffs;
use crate::nodes::{elements, formulas, numbers_in, sets};
use crate::tables::Tables;
use crate::walk::walk;
use sc_terms::{Bank, Memory, Numbers, Parts, Problem};
use std::alloc::Global;

/// The problem of assertions whose nodes have numbers.
fn problem(
    alloc: Global,
    bank: &Bank,
    tables: &Tables,
    assertions: &[u32],
) -> Result<Problem, Memory>
    requires { IsReady bank.now assertions.now tables.now }
    ensures { IfOk result (λ p. p ≡ problem_by bank.now assertions.now (numbering tables.now)) }
{
    let roots = numbers_in(alloc, &tables.formulas, assertions)?;
    let formulas = formulas(alloc, bank, tables)?;
    let sets = sets(alloc, bank, tables)?;
    let mut elements = elements(alloc, bank, tables)?;
    add_diffs(alloc, &mut elements, formulas.as_slice())?;
    let components = components(alloc, sets.as_slice(), formulas.as_slice())?;
    let bases = bases(alloc, sets.as_slice(), components.as_slice())?;
    let numbers = Numbers::from_slice(alloc, assertions)?;
    let ints = Numbers::from_slice(alloc, tables.ints.as_slice())?;
    Ok(Problem::from_parts(Parts {
        roots,
        assertions: numbers,
        formulas,
        sets,
        elements,
        ints,
        components,
        bases,
    }))
}

/// The stock of the assertions, which are numbers of formulas of the bank: their problem, whose roots are the assertions' formulas, in the same order. The time is near linear in the number of nodes under the assertions and of their parts. The only error is want of memory.
pub fn prepare(alloc: Global, bank: &Bank, assertions: &[u32]) -> Result<Problem, Memory>
    requires { AreFormulasOf bank.now assertions.now }
    ensures { IfOk result (λ p. p ≡ stock bank.now assertions.now) }
{
    let _count = bank.len();
    let order = walk(alloc, bank, assertions)?;
    let tables = Tables::of(alloc, bank, order.as_slice())?;
    problem(alloc, bank, &tables, assertions)
}
