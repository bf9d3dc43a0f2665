//! The tree with its journal.

ghost use Rattle.std.specs.Prelude.{◌≡◌, ◌≢◌, ◌||◌, ◌&&◌, ◌++◌, ◌∷◌, ◌≤◌, ◌<◌, [], ℕ, Some, None, is_some, true, false, ◌↔◌, IfOk, OnOk, OnErr, IsOk, IsTrue, IfSome, slice_get, length, reverse};
ghost use Rattle.std.specs.Vec.{vec_len, vec_capacity};
ghost use Rattle.sc_tree.specs.Machine.{kept, entry, with_entry, has_answer, state, IsLegal, IsAt, MayAsk, HasLeaf, HoldsNone};
ghost use Rattle.sc_tree.specs.Answering.{Adds, Answers, takes_no_room};
ghost use Rattle.sc_tree.specs.Keeping.{is_held, is_open, found_in, GivesUp, GivesBack, IsFound};
ghost use Rattle.sc_tree.specs.Reading.{AreClosed, tree_nodes};
ghost use Rattle.sc_tree.specs.Verdicts.{IsJust, IsOutAt, IsOutOfBudget, IsVerdictOf, Refutes, SomeSpent};
ghost use Rattle.sc_tree.specs.declared.machine.Entry.{Entry as JournalEntry};

use crate::climb::{find_place, is_full, lead_to};
use crate::laws::models_show;
use crate::machine::{Cause, Chain, Entry, Event, Mark, Place, Reply, SeenCause};
use crate::opened::{first_open, none_is_open, open_two, take_open};
use crate::places::{add_steps, copy_steps, part_place, set_mark};
use crate::reading::{is_spent, nodes_of, some_is_spent};
use crate::seats::Seats;
use crate::verdict::Verdict;
use sc_deriv::{Closing, Derivation, Lemmas, Step, lemmas_follow};
use sc_terms::{Interp, Memory, Problem};
use std::alloc::Global;
use std::marker::Model;
use std::snapshot::Snapshot;

/// The branches of a problem that were begun, and what became of them. Contracts see the problem, the budget and the journal: one entry for each event that was not answered Idle. The state of the tree is the machine's after that journal.
#[derive(Drop)]
pub struct Tree {
    about: Snapshot<Problem>,
    alloc: Global,
    budget: u64,
    places: Vec<Place>,
    /// The leaves that are open, of which the last is taken first.
    opened: Vec<u64>,
    held: Seats,
    /// Where in the journal the model stands, counted from 0.
    found: Option<usize>,
    journal: Vec<Entry>,
}

impl Model for Tree {
    ghost use Rattle.std.specs.Prelude.{ℕ, List, ◌+◌, ◌≤◌, length, reverse, refl};
    ghost use Rattle.std.specs.Coded.{code_by, coded×, coded_ℕ, coded_list};
    ghost use Rattle.sc_terms.specs.declared.problem.Parts.{Parts};
    ghost use Rattle.sc_terms.specs.contracts.problem.Parts as problem_row;
    ghost use Rattle.sc_tree.specs.declared.machine.Entry.{Entry};
    ghost use Rattle.sc_tree.specs.contracts.machine.Entry as entry_row;
    ghost use Rattle.std.specs.Vec.{vec_len, vec_capacity};
    ghost use Rattle.sc_tree.specs.Machine.{Kept};
    ghost use Rattle.sc_tree.specs.Keeping.{IsKept};

    ghost Value = { Kept };

    ghost coded = { code_by (Parts × (ℕ × List Entry)) (coded× problem_row.the_row.coded (coded× coded_ℕ (coded_list entry_row.the_row.coded))) (λ t. (t.problem, (t.budget, t.journal))) (λ p. record { problem = p.0; budget = p.1.0; journal = p.1.1 }) (λ _. refl) };

    ghost view = { λ t. record { problem = t.about.value; budget = t.budget; journal = t.journal.items } };

    // Each seat that holds a leaf can give it up without memory.
    ghost invariant = { λ t. IsKept t.about.value t.budget t.places.items (reverse t.opened.items) t.held t.found t.journal.items × (vec_len t.journal + length t.held ≤ vec_capacity t.journal) × (vec_len t.opened + length t.held ≤ vec_capacity t.opened) };
}

impl Tree {
    /// The tree of a problem, of which only the root's leaf is there, and open; it has the number 1. No path may have more than `budget` steps. The only error is want of memory.
    pub fn root(alloc: Global, problem: &Problem, budget: u64) -> Result<Tree, Memory>
        ensures { IfOk result (λ t. t ≡ kept problem.now budget []) }
    {
        let mut places = Vec::new(alloc);
        places.push(Place::new(alloc, 0, 0))?;
        let mut opened = Vec::new(alloc);
        opened.push(1)?;
        Ok(Tree {
            about: Snapshot::of(problem),
            alloc,
            budget,
            places,
            opened,
            held: Seats::new(alloc),
            found: None,
            journal: Vec::new(alloc),
        })
    }

    /// How many entries the journal has.
    pub fn len(&self) -> u64
        ensures length { result ≡ length self.now.journal }
        ensures legal { IsLegal self.now.problem self.now.budget self.now.journal }
    {
        self.journal.len() as u64
    }

    /// Whether there is a model, or every leaf is closed or spent.
    fn is_answered(&self) -> bool
        ensures { result ≡ has_answer (state self.now) }
    {
        is_over(
            self.found.is_some(),
            none_is_open(&self.opened),
            self.held.is_empty(),
        )
    }

    /// The leaf that the seat holds.
    fn leaf_of(&self, seat: u32) -> Option<u64>
        ensures { (n : ℕ) → HasLeaf (state self.now).cells seat n ↔ (result ≡ Some n) }
    {
        self.held.leaf_of(seat)
    }

    /// The leaf of a seat that holds one.
    fn own_leaf(&self, seat: u32) -> u64
        requires { (n : ℕ) × HasLeaf (state self.now).cells seat n }
        ensures { (n : ℕ) → HasLeaf (state self.now).cells seat n → result ≡ n }
    {
        self.leaf_of(seat).unwrap_or(0)
    }

    /// The seat gives up its leaf, which gets a mark that is for good.
    fn give_up(&mut self, entry: Entry, mark: Mark)
        requires gives { GivesUp self.old entry mark }
        requires held { is_held mark ≡ false }
        requires ended { is_open mark ≡ false }
        ensures { self.new ≡ with_entry self.old entry }
    {
        set_mark(&mut self.places, entry.leaf, mark);
        self.held.remove(entry.seat);
        self.journal.push_reserved(entry);
    }

    /// The seat gives back its leaf, which is open again; where the model stands in the journal is told.
    fn give_back(&mut self, entry: Entry, found: Option<usize>)
        requires gives { GivesBack self.old entry found }
        ensures { self.new ≡ with_entry self.old entry }
    {
        set_mark(&mut self.places, entry.leaf, Mark::Open);
        self.opened.push_reserved(entry.leaf);
        self.held.remove(entry.seat);
        self.found = found;
        self.journal.push_reserved(entry);
    }

    /// The seat's leaf is closed, and the seat gives it up.
    #[tactic(auto, using(crate::proofs::Kept::gives_closed))]
    fn close(&mut self, seat: u32, leaf: u64, closing: Closing) -> Result<(), Memory>
        requires at { IsAt self.old.problem self.old.budget (state self.old).cells seat leaf (Event.Close closing) }
        requires going { has_answer (state self.old) ≡ false }
        ensures ok { OnOk result (self.new ≡ with_entry self.old (entry seat leaf (Event.Close closing) false)) }
        ensures err { OnErr result (self.new ≡ self.old) }
    {
        let mark = Mark::Closed(closing.clone()?);
        let event = Event::Close(closing);
        self.give_up(Entry::new(seat, leaf, event, false), mark);
        Ok(())
    }

    /// The seat's leaf is spent, and the seat gives it up. The cause moves into the journal.
    #[tactic(auto, using(crate::proofs::Kept::gives_spent))]
    fn spend(&mut self, seat: u32, leaf: u64, cause: Cause)
        requires at { IsAt self.old.problem self.old.budget (state self.old).cells seat leaf (Event.Spend cause) }
        requires going { has_answer (state self.old) ≡ false }
        ensures { self.new ≡ with_entry self.old (entry seat leaf (Event.Spend cause) false) }
    {
        let mark = Mark::Spent(SeenCause::of(&cause));
        let event = Event::Spend(cause);
        self.give_up(Entry::new(seat, leaf, event, false), mark);
    }

    /// There is a model, and the seat gives back its leaf.
    #[tactic(auto, using(crate::proofs::Kept::gives_found))]
    fn find(&mut self, seat: u32, leaf: u64, values: Interp)
        requires at { IsAt self.old.problem self.old.budget (state self.old).cells seat leaf (Event.Found values) }
        requires going { has_answer (state self.old) ≡ false }
        ensures { self.new ≡ with_entry self.old (entry seat leaf (Event.Found values) false) }
    {
        let found = Some(self.journal.len());
        let event = Event::Found(values);
        self.give_back(Entry::new(seat, leaf, event, false), found);
    }

    /// The tree has its answer, and the seat gives back its leaf.
    fn return_leaf(&mut self, seat: u32, leaf: u64, event: Event)
        requires over { has_answer (state self.old) ≡ true }
        requires held { HasLeaf (state self.old).cells seat leaf }
        ensures { self.new ≡ with_entry self.old (entry seat leaf event true) }
    {
        let found = self.found;
        self.give_back(Entry::new(seat, leaf, event, true), found);
    }

    /// The tree has its answer, and the seat holds nothing.
    fn note_end(&mut self, seat: u32, event: Event) -> Result<(), Memory>
        requires over { has_answer (state self.old) ≡ true }
        requires none { HoldsNone (state self.old).cells seat }
        ensures ok { OnOk result (self.new ≡ with_entry self.old (entry seat 0 event true)) }
        ensures err { OnErr result (self.new ≡ self.old) }
    {
        self.journal.reserve(1 + self.held.len())?;
        self.journal.push_reserved(Entry::new(seat, 0, event, true));
        Ok(())
    }

    /// The tree has its answer: the seat gives back the leaf that it holds, if any.
    fn end(&mut self, seat: u32, event: Event) -> Result<(), Memory>
        requires over { has_answer (state self.old) ≡ true }
        ensures ok { OnOk result ((n : ℕ) × Adds self.old (entry seat n event true) self.new) }
        ensures err { OnErr result (self.new ≡ self.old) }
        ensures sure { (n : ℕ) → HasLeaf (state self.old).cells seat n → IsOk result }
    {
        match self.leaf_of(seat) {
            Some(leaf) => {
                self.return_leaf(seat, leaf, event);
                Ok(())
            }
            None => self.note_end(seat, event),
        }
    }

    /// The path of the seat's leaf goes on with these steps.
    fn grow(&mut self, seat: u32, leaf: u64, chain: Chain) -> Result<(), Memory>
        requires at { IsAt self.old.problem self.old.budget (state self.old).cells seat leaf (Event.Grow chain) }
        requires going { has_answer (state self.old) ≡ false }
        ensures ok { OnOk result (self.new ≡ with_entry self.old (entry seat leaf (Event.Grow chain) false)) }
        ensures err { OnErr result (self.new ≡ self.old) }
    {
        let steps = copy_steps(self.alloc, chain.as_slice())?;
        self.journal.reserve(1 + self.held.len())?;
        add_steps(self.alloc, &mut self.places, leaf, steps)?;
        let event = Event::Grow(chain);
        self.journal
            .push_reserved(Entry::new(seat, leaf, event, false));
        Ok(())
    }

    /// The seat's leaf is split, and the seat gives it up.
    fn split(&mut self, seat: u32, leaf: u64, step: Step) -> Result<(), Memory>
        requires at { IsAt self.old.problem self.old.budget (state self.old).cells seat leaf (Event.Split step) }
        requires going { has_answer (state self.old) ≡ false }
        ensures ok { OnOk result (self.new ≡ with_entry self.old (entry seat leaf (Event.Split step) false)) }
        ensures err { OnErr result (self.new ≡ self.old) }
    {
        self.opened.reserve(2 + self.held.len())?;
        let first = part_place(self.alloc, &mut self.places, leaf, &step)?;
        open_two(&mut self.opened, first);
        self.held.remove(seat);
        let event = Event::Split(step);
        self.journal
            .push_reserved(Entry::new(seat, leaf, event, false));
        Ok(())
    }

    /// The seat takes the leaf that was opened last, where one is open.
    fn take(&mut self, problem: &Problem, seat: u32) -> Result<Reply, Memory>
        requires about { self.old.problem ≡ problem.now }
        requires none { HoldsNone (state self.old).cells seat }
        requires going { has_answer (state self.old) ≡ false }
        ensures ok { IfOk result (λ r. Answers self.old seat Event.Take r self.new) }
        ensures err { OnErr result (self.new ≡ self.old) }
    {
        let Some(leaf) = first_open(&self.opened) else {
            return Ok(Reply::Idle);
        };
        self.journal.reserve(2 + self.held.len())?;
        self.held.add(seat, leaf)?;
        match lead_to(self.alloc, self.places.as_slice(), problem, leaf) {
            Ok((path, steps)) => {
                take_open(&mut self.opened);
                set_mark(&mut self.places, leaf, Mark::Held(seat));
                self.journal
                    .push_reserved(Entry::new(seat, leaf, Event::Take, false));
                Ok(Reply::Leaf { leaf, path, steps })
            }
            Err(error) => {
                self.held.remove(seat);
                Err(error)
            }
        }
    }

    /// An event of a seat that the tree has not ended: at its own leaf.
    fn change(&mut self, seat: u32, event: Event) -> Result<(), Memory>
        requires at { (n : ℕ) × IsAt self.old.problem self.old.budget (state self.old).cells seat n event }
        requires going { has_answer (state self.old) ≡ false }
        ensures ok { OnOk result ((event ≢ Event.Take) × (n : ℕ) × Adds self.old (entry seat n event false) self.new) }
        ensures err { OnErr result (self.new ≡ self.old) }
        ensures sure { takes_no_room event ≡ true → IsOk result }
    {
        let leaf = self.own_leaf(seat);
        match event {
            Event::Take => Ok(()),
            Event::Grow(chain) => self.grow(seat, leaf, chain),
            Event::Split(step) => self.split(seat, leaf, step),
            Event::Close(closing) => self.close(seat, leaf, closing),
            Event::Spend(cause) => {
                self.spend(seat, leaf, cause);
                Ok(())
            }
            Event::Found(values) => {
                self.find(seat, leaf, values);
                Ok(())
            }
        }
    }

    /// What the tree answers to an event of a seat.
    fn answer(&mut self, problem: &Problem, seat: u32, event: Event) -> Result<Reply, Memory>
        requires about { self.old.problem ≡ problem.now }
        requires may { MayAsk self.old seat event }
        ensures ok { IfOk result (λ r. Answers self.old seat event r self.new) }
        ensures err { OnErr result (self.new ≡ self.old) }
        ensures sure { takes_no_room event ≡ true → IsOk result }
    {
        if self.is_answered() {
            return match self.end(seat, event) {
                Ok(()) => Ok(Reply::Over),
                Err(error) => Err(error),
            };
        }
        if let Event::Take = &event {
            return self.take(problem, seat);
        }
        self.change(seat, event)?;
        Ok(Reply::Done)
    }

    /// An event of a seat, with what it is answered: `Leaf` where it takes a leaf, `Idle` where none is open and some is held, `Done` where what it asked is done, and `Over` where the tree has its answer, that is a model, or no leaf that is open or held. After `Idle` the tree is as it was. After any other answer its journal has one more entry. Which leaf is taken is free.
    ///
    /// The problem must be the tree's. For `Take` the seat must hold no leaf; for every other event it must hold one, which allows the event: steps that are taken apply there, one after another, keep its path lean, and within the budget; a closing holds; a leaf that is given up has as many steps as the budget allows, or a number past 128 bits that the note names, and no clash; values make the roots true.
    ///
    /// The only error is want of memory, and then the event has not happened. `Spend` and `Found` need no memory.
    pub fn step(&mut self, problem: &Problem, seat: u32, event: Event) -> Result<Reply, Memory>
        requires about { self.old.problem ≡ problem.now }
        requires may { MayAsk self.old seat event }
        ensures ok { IfOk result (λ r. Answers self.old seat event r self.new) }
        ensures err { OnErr result (self.new ≡ self.old) }
        ensures sure { takes_no_room event ≡ true → IsOk result }
        ensures legal { IsLegal self.new.problem self.new.budget self.new.journal }
        ensures before { IsLegal self.old.problem self.old.budget self.old.journal }
    {
        let _before = self.len();
        let reply = self.answer(problem, seat, event);
        let _after = self.len();
        reply
    }

    /// Whether some leaf was given up.
    fn has_spent(&self) -> bool
        ensures { IsTrue result ↔ SomeSpent (state self.now).cells }
    {
        some_is_spent(self.places.as_slice())
    }

    /// Whether some leaf was given up on a path that has as many steps as the budget allows, whatever its cause.
    pub fn out_of_budget(&self) -> bool
        ensures { IsTrue result ↔ IsOutOfBudget self.now }
    {
        for before in 0..self.places.len() as u64 {
            if self.is_out_at(before + 1) {
                return true;
            }
        }
        false
    }

    /// Whether the leaf with this number was given up on such a path.
    fn is_out_at(&self, number: u64) -> bool
        ensures { IsTrue result ↔ IsOutAt self.now number }
    {
        let Some(place) = find_place(self.places.as_slice(), number) else {
            return false;
        };
        if !is_spent(place) {
            return false;
        }
        is_full(self.places.as_slice(), number, self.budget)
    }

    /// The values that were found; they stand at this place of the journal.
    fn into_model(self, place: usize) -> Interp
        requires { (e : JournalEntry) × (slice_get self.journal place ≡ Some e) × (found_in e.event ≡ (state self).model) × is_some (state self).model ≡ true }
        ensures { (state self).model ≡ Some result }
    {
        let mut journal = self.journal;
        let entry = journal.swap_remove(place);
        match entry.event {
            Event::Found(values) => values,
            _ => unreachable!(),
        }
    }

    /// The refutation that the tree is, each leaf of which is closed.
    fn derivation(&self, problem: &Problem) -> Result<Derivation, Memory>
        requires about { self.now.problem ≡ problem.now }
        requires closed { AreClosed (state self.now).cells }
        ensures nodes { IfOk result (λ d. d.nodes ≡ tree_nodes self.now) }
        ensures lemmas { IfOk result (λ d. d.lemmas ≡ []) }
        ensures just { IfOk result (Refutes problem.now) }
    {
        lemmas_follow();
        let _roots = problem.roots();
        let nodes = nodes_of(self.alloc, self.places.as_slice())?;
        Ok(Derivation {
            lemmas: Lemmas::new(self.alloc),
            nodes,
        })
    }

    /// What is said of the problem: nothing exactly where a leaf is open or held and there is no model. Else the model, where there is one; else the tree's steps and closings, where no leaf was given up; else the tree.
    ///
    /// The problem must be the tree's. The only error is want of memory.
    pub fn verdict(self, problem: &Problem) -> Result<Option<Verdict>, Memory>
        requires about { self.problem ≡ problem.now }
        ensures exact { IfOk result (IsVerdictOf self) }
        ensures just { IfOk result (λ v. IfSome v (IsJust problem.now self.budget)) }
    {
        if !self.is_answered() {
            return Ok(None);
        }
        let _legal = self.len();
        models_show();
        match self.model_place() {
            Some(place) => Ok(Some(Verdict::Sat(self.into_model(place)))),
            None => self.verdict_without_model(problem),
        }
    }

    /// Where in the journal the model stands.
    fn model_place(&self) -> Option<usize>
        ensures { IsFound self.now.journal result (state self.now).model }
    {
        self.found
    }

    /// What is said of the problem where there is an answer, but no model.
    fn verdict_without_model(self, problem: &Problem) -> Result<Option<Verdict>, Memory>
        requires about { self.problem ≡ problem.now }
        requires over { has_answer (state self) ≡ true }
        requires none { (state self).model ≡ None }
        ensures exact { IfOk result (IsVerdictOf self) }
        ensures just { IfOk result (λ v. IfSome v (IsJust problem.now self.budget)) }
    {
        let _legal = self.len();
        if self.has_spent() {
            return Ok(Some(Verdict::Unknown(self)));
        }
        let derivation = self.derivation(problem)?;
        Ok(Some(Verdict::Unsat(derivation)))
    }
}

fn is_over(found: bool, none_open: bool, none_held: bool) -> bool
    ensures { result ≡ (found || (none_open && none_held)) }
{
    found || (none_open && none_held)
}
