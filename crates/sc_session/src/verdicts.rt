//! The verdicts of a script.

ghost use Rattle.std.specs.Prelude.{◌≡◌, [], ◌∷◌, ◌++◌, OnOk, OnErr};

use sc_tree::{Memory, Verdict};
use std::alloc::Global;
use std::marker::Model;

/// The verdicts of the check-sats that were done, in order.
#[derive(Drop)]
pub struct Verdicts {
    items: Vec<Verdict>,
}

impl Model for Verdicts {
    ghost use Rattle.std.specs.Prelude.{List};
    ghost use Rattle.std.specs.Coded.{coded_list};
    ghost use Rattle.sc_tree.specs.declared.verdict.Verdict.{Verdict};
    ghost use Rattle.sc_tree.specs.contracts.verdict.Verdict as verdict;

    ghost Value = { List Verdict };

    ghost coded = { coded_list verdict.the_row.coded };

    ghost view = { λ v. v.items.items };
}

impl Verdicts {
    /// No verdicts.
    pub fn new(alloc: Global) -> Verdicts
        ensures { result ≡ [] }
    {
        Verdicts {
            items: Vec::new(alloc),
        }
    }

    /// Adds the verdict of the next check-sat. Where memory is refused none is added.
    pub fn push(&mut self, verdict: Verdict) -> Result<(), Memory>
        ensures ok { OnOk result (self.new ≡ self.old ++ verdict ∷ []) }
        ensures err { OnErr result (self.new ≡ self.old) }
    {
        match self.items.push(verdict) {
            Ok(()) => Ok(()),
            Err(_) => Err(Memory),
        }
    }

    /// The verdicts, in the order of their check-sats.
    pub fn as_slice(&self) -> &[Verdict]
        ensures { result.now ≡ self.now }
    {
        &self.items
    }
}
