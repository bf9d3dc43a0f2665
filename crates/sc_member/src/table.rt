//! The table of what is said of members.

ghost use Rattle.std.specs.Prelude.{◌≡◌, IfOk, OnOk, OnErr};
ghost use Rattle.sc_member.specs.Memberships.{of_roots, with_fact, equations, Finds};

use crate::agenda::Agenda;
use crate::index::{Index, index_of, note_fact};
use sc_classes::Classes;
use sc_facts::{Fact, Path};
use sc_rules::PlainStep;
use sc_terms::{Memory, Problem};
use std::alloc::Global;
use std::marker::Model;
use std::snapshot::Snapshot;

/// What is said of the members and the equalities of a problem, and how far it was followed up. Seen as the problem, and as the facts of its roots with the added ones behind them, in order, as those of a path.
#[derive(Drop)]
pub struct MemberTable {
    about: Snapshot<Problem>,
    path: Path,
    index: Index,
    agenda: Agenda,
}

impl Model for MemberTable {
    ghost use Rattle.sc_member.specs.Memberships.{Memberships};
    ghost use Rattle.sc_member.specs.Notes.{AreNoted, HasPartners};
    ghost use Rattle.sc_member.specs.Candidates.{AllCarry};

    ghost Value = { Memberships };

    ghost view = { λ t. record { problem = t.about.value; facts = t.path.facts } };

    ghost invariant = { λ t. AreNoted t.about.value t.index.parents t.index.singles × HasPartners t.path.facts t.index.partners × AllCarry t.agenda.pending.items };
}

impl MemberTable {
    /// The table of a problem, with the facts of its roots. The only error is want of memory.
    #[tactic(auto, using(crate::proofs::Complete::roots_alone))]
    pub fn new(alloc: Global, problem: &Problem) -> Result<MemberTable, Memory>
        ensures { IfOk result (λ table. table ≡ of_roots problem.now) }
    {
        Ok(MemberTable {
            about: Snapshot::of(problem),
            path: Path::root(alloc, problem)?,
            index: index_of(alloc, problem)?,
            agenda: Agenda::new(alloc),
        })
    }

    /// Adds a fact. The only error is want of memory, and then the table stays as it was.
    pub fn add(&mut self, fact: &Fact) -> Result<(), Memory>
        ensures ok { OnOk result (self.new ≡ with_fact self.old fact.now) }
        ensures err { OnErr result (self.new ≡ self.old) }
    {
        let copy = fact.clone()?;
        note_fact(&mut self.index.partners, fact)?;
        self.path.push(copy)
    }

    /// A step on an operation, into a set of one element, to an equal element or to an equal set that applies at the table's facts and concludes a fact that is none of them; nothing exactly where none of these steps does. It wants the problem that the table was made for, and classes whose merged pairs are those that the facts have as equal, in their order. The only error is want of memory.
    ///
    /// Each fact is followed up when it comes: its steps are tried once, those alone that it may take part in. Where none of them forces anything, all facts are followed up once more before the answer is that nothing is forced.
    pub fn forced(
        &mut self,
        alloc: Global,
        problem: &Problem,
        classes: &Classes,
    ) -> Result<Option<PlainStep>, Memory>
        requires problem { problem.now ≡ self.old.problem }
        requires classes { classes.now.pairs ≡ equations self.old.facts }
        ensures found { IfOk result (λ found. Finds problem.now self.old.facts found) }
        ensures same { self.new ≡ self.old }
    {
        let found = self
            .agenda
            .tried_rest(alloc, problem, &self.path, &self.index, classes)?;
        if found.is_some() {
            return Ok(found);
        }
        self.agenda.restart();
        self.agenda
            .tried_rest(alloc, problem, &self.path, &self.index, classes)
    }
}
