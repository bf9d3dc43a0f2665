//! The elements in which sets differ.

ghost use Rattle.std.specs.Prelude.{◌≡◌, ◌++◌, map, IfOk, OnOk};
ghost use Rattle.indexmap.specs.IndexSet.{insert_all};
ghost use Rattle.sc_flatten.specs.Classes.{sides_of, same_pair, pairs_of, diff_of_pair};

use indexmap::IndexSet;
use sc_terms::{Element, Elements, Formula, Memory};
use std::alloc::Global;

/// Enters the sides of an equation of two different sets, the lower number first.
fn enter_sides(pairs: &mut IndexSet<(u32, u32)>, formula: &Formula) -> Result<(), Memory>
    ensures { OnOk result (pairs.new.keys ≡ insert_all same_pair pairs.old.keys (sides_of formula.now)) }
{
    let Formula::EqSet(first, second) = formula else {
        return Ok(());
    };
    if first < second {
        pairs.insert((*first, *second))?;
    } else if second < first {
        pairs.insert((*second, *first))?;
    }
    Ok(())
}

/// The pairs of different sets that stand in an equation, each once, in the order of the formulas.
fn pairs(alloc: Global, formulas: &[Formula]) -> Result<IndexSet<(u32, u32)>, Memory>
    ensures { IfOk result (λ pairs. pairs.keys ≡ pairs_of formulas.now) }
{
    let mut pairs = IndexSet::new(alloc);
    for formula in formulas {
        enter_sides(&mut pairs, formula)?;
    }
    Ok(pairs)
}

/// Adds the element in which they differ, if they do, for each two different sets that stand in an equation.
pub(crate) fn add_diffs(
    alloc: Global,
    elements: &mut Elements,
    formulas: &[Formula],
) -> Result<(), Memory>
    ensures { OnOk result (elements.new ≡ elements.old ++ map diff_of_pair (pairs_of formulas.now)) }
{
    let pairs = pairs(alloc, formulas)?;
    for pair in pairs.as_slice() {
        elements.push(Element::Diff(pair.0, pair.1))?;
    }
    Ok(())
}
