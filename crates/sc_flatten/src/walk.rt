//! The walk over the nodes under a list of formulas.

ghost use Rattle.std.specs.Prelude.{◌≡◌, ◌<◌, ◌≤◌, length, IfOk, OnOk};
ghost use Rattle.sc_terms.specs.Conditions.{IsIn};
ghost use Rattle.sc_flatten.specs.Walk.{order_of, visited, pending_after};
ghost use Rattle.sc_flatten.specs.Laws.{AreFormulasOf};

use crate::pending::Pending;
use indexmap::IndexSet;
use sc_terms::{Bank, Memory};
use std::alloc::Global;

/// Visits a node: when it is first met, its parts come next.
fn visit(
    bank: &Bank,
    met: &mut IndexSet<u32>,
    pending: &mut Pending,
    number: u32,
) -> Result<(), Memory>
    requires { IsIn (length bank.now) number }
    ensures met { OnOk result (met.new.keys ≡ visited number met.old.keys) }
    ensures pending { OnOk result (pending.new ≡ pending_after bank.now number met.old.keys pending.old) }
{
    if met.contains(&number) {
        return Ok(());
    }
    met.insert(number)?;
    pending.push_parts(bank.node_at(number))?;
    Ok(())
}

/// The nodes under formulas of the bank in the order in which they are first met, a node before its parts and each once.
pub(crate) fn walk(alloc: Global, bank: &Bank, assertions: &[u32]) -> Result<IndexSet<u32>, Memory>
    requires { AreFormulasOf bank.now assertions.now }
    ensures { IfOk result (λ s. s.keys ≡ order_of bank.now assertions.now) }
{
    let count = bank.len();
    let mut met = IndexSet::new(alloc);
    let mut pending = Pending::new(alloc);
    pending.push_all(assertions)?;
    while let Some(number) = pending.pop() {
        visit(bank, &mut met, &mut pending, number)?;
    }
    Ok(met)
}
