//! Paths.

ghost use Rattle.std.specs.Prelude.{◌≡◌, ◌≤◌, ◌<◌, [], ◌∷◌, ◌++◌, length, take, slice_get, IfOk, OnOk, OnErr};
ghost use Rattle.std.specs.Option.{option_copied};
ghost use Rattle.sc_base.specs.Numbered.{item_at};
ghost use Rattle.sc_terms.specs.Conditions.{IsProblem};
ghost use Rattle.sc_facts.specs.Facts.{has, named, first_place, row_in, rows_of};
ghost use Rattle.std.specs.Vec.{vec_len, vec_capacity};
ghost use Rattle.sc_facts.specs.Paths.{root_count, BeginsWithRoots, from_root, with_facts, row_place, row_by};

use crate::fact::Fact;
use crate::facts::Facts;
use crate::name::FactName;
use crate::places::{Before, FirstPlaces};
use sc_terms::{Memory, Numbers, Problem, Row};
use std::alloc::{AllocError, Global};
use std::marker::Model;

/// The facts of a branch, seen as a list that begins with those of the root path: each root is true, in their order. Seen with the roots.
#[derive(Drop)]
pub struct Path {
    roots: Numbers,
    facts: Vec<Fact>,
    first_places: FirstPlaces,
    /// The places of the rows.
    row_places: Vec<usize>,
    /// What the tables have before each place.
    before: Vec<Before>,
}

impl Model for Path {
    ghost use Rattle.sc_facts.specs.Paths.{PathFacts, BeginsWithRoots, IsIndexed};

    ghost Value = { PathFacts };

    ghost view = { λ p. record { roots = p.roots; facts = p.facts.items } };

    ghost invariant = { λ p. BeginsWithRoots (record { roots = p.roots; facts = p.facts.items }) × IsIndexed p.facts.items p.first_places p.row_places.items p.before.items };
}

/// Notes the place of a fact that is a row. There is room for it.
fn note_row(places: &mut Vec<usize>, fact: &Fact, place: usize)
    requires { vec_len places.old < vec_capacity places.old }
    ensures { places.new.items ≡ places.old.items ++ row_place place fact.now }
{
    if let Fact::Row(_) = fact {
        places.push_reserved(place);
    }
}

/// What stands before a place, or nothing past the last.
fn before_at(before: &[Before], place: usize) -> Option<Before>
    ensures { result ≡ slice_get before.now place }
{
    before.get(place).copied()
}

/// The row that a row fact states.
fn row_of(fact: &Fact) -> Option<&Row>
    ensures { option_copied result ≡ row_in fact.now }
{
    match fact {
        Fact::Row(row) => Some(row),
        _ => None,
    }
}

/// The row at the place that stands at an index of the places.
fn row_at<'a>(facts: &'a [Fact], places: &[usize], index: usize) -> Option<&'a Row>
    ensures { option_copied result ≡ row_by facts.now places.now index }
{
    let place = *places.get(index)?;
    row_of(facts.get(place)?)
}

impl Path {
    /// The path of no facts.
    fn empty(alloc: Global) -> Path
        ensures { result ≡ record { roots = []; facts = [] } }
    {
        Path {
            roots: Numbers::new(alloc),
            facts: Vec::new(alloc),
            first_places: FirstPlaces::new(alloc),
            row_places: Vec::new(alloc),
            before: Vec::new(alloc),
        }
    }

    /// The root path of a problem: each root is true, in their order. The only error is want of memory.
    pub fn root(alloc: Global, problem: &Problem) -> Result<Path, Memory>
        ensures path { IfOk result (λ path. path ≡ from_root problem.now) }
        ensures problem { IsProblem problem.now }
    {
        let roots = Numbers::from_slice(alloc, problem.roots())?;
        let mut path = Path::empty(alloc);
        for root in problem.roots() {
            if path.push(Fact::Sign(*root, true)).is_err() {
                return Err(Memory);
            }
        }
        path.roots = roots;
        Ok(path)
    }

    /// Adds a fact at the end. Where memory is refused the path stays as it was.
    #[tactic(auto, using(crate::proofs::Lookups::more_kept))]
    pub fn push(&mut self, fact: Fact) -> Result<(), Memory>
        ensures ok { OnOk result (self.new ≡ with_facts self.old (self.old.facts ++ fact ∷ [])) }
        ensures err { OnErr result (self.new ≡ self.old) }
    {
        let place = self.facts.len();
        let before = self.first_places.counts(self.row_places.len());
        self.facts.reserve(1)?;
        self.before.reserve(1)?;
        self.row_places.reserve(1)?;
        self.first_places.note(&fact, place)?;
        note_row(&mut self.row_places, &fact, place);
        self.before.push_reserved(before);
        self.facts.push_reserved(fact);
        Ok(())
    }

    /// Adds copies of the facts at the end, in their order. Where memory is refused the path stays as it was.
    pub fn extend(&mut self, facts: &[Fact]) -> Result<(), Memory>
        ensures ok { OnOk result (self.new ≡ with_facts self.old (self.old.facts ++ facts.now)) }
        ensures err { OnErr result (self.new ≡ self.old) }
    {
        let length = self.len();
        let added = self.add_copies(facts);
        if added.is_err() {
            self.cut_back(length);
        }
        added
    }

    /// Adds the facts at the end, in their order; takes no copies of them. Where memory is refused the path stays as it was.
    pub fn append(&mut self, facts: Facts) -> Result<(), Memory>
        ensures ok { OnOk result (self.new ≡ with_facts self.old (self.old.facts ++ facts)) }
        ensures err { OnErr result (self.new ≡ self.old) }
    {
        let length = self.len();
        let added = self.add_facts(facts);
        if added.is_err() {
            self.cut_back(length);
        }
        added
    }

    /// Adds the facts at the end, or some of them where memory is refused.
    fn add_facts(&mut self, facts: Facts) -> Result<(), Memory>
        ensures ok { OnOk result (self.new ≡ with_facts self.old (self.old.facts ++ facts)) }
        ensures roots { self.new.roots ≡ self.old.roots }
        ensures longer { length self.old.facts ≤ length self.new.facts }
        ensures front { take (length self.old.facts) self.new.facts ≡ self.old.facts }
    {
        for fact in facts.into_vec() {
            match self.push(fact) {
                Ok(()) => {}
                Err(e) => return Err(e),
            }
        }
        Ok(())
    }

    /// Adds copies of the facts at the end, or of some of them where memory is refused.
    fn add_copies(&mut self, facts: &[Fact]) -> Result<(), Memory>
        ensures ok { OnOk result (self.new ≡ with_facts self.old (self.old.facts ++ facts.now)) }
        ensures roots { self.new.roots ≡ self.old.roots }
        ensures longer { length self.old.facts ≤ length self.new.facts }
        ensures front { take (length self.old.facts) self.new.facts ≡ self.old.facts }
    {
        for fact in facts {
            match fact.clone() {
                Ok(copy) => match self.push(copy) {
                    Ok(()) => {}
                    Err(e) => return Err(e),
                },
                Err(_) => return Err(Memory),
            }
        }
        Ok(())
    }

    /// Keeps the first facts alone, so many as `count` says, which are those of the root path at least.
    #[tactic(auto, using(crate::proofs::Lookups::front_kept, crate::proofs::Lookups::whole))]
    pub fn cut_back(&mut self, count: usize)
        requires roots { root_count self.old ≤ count }
        requires facts { count ≤ length self.old.facts }
        ensures { self.new ≡ with_facts self.old (take count self.old.facts) }
    {
        let Some(before) = before_at(self.before.as_slice(), count) else {
            return;
        };
        self.first_places.truncate(before);
        self.row_places.truncate(before.rows);
        self.before.truncate(count);
        self.facts.truncate(count);
    }

    /// The facts in order, those of the root path first.
    pub fn facts(&self) -> &[Fact]
        ensures facts { result.now ≡ self.now.facts }
        ensures front { BeginsWithRoots self.now }
    {
        self.facts.as_slice()
    }

    /// How many facts there are.
    pub fn len(&self) -> usize
        ensures len { result ≡ length self.now.facts }
        ensures roots { root_count self.now ≤ length self.now.facts }
    {
        self.facts.len()
    }

    /// The roots on which the path stands: its first facts are that each is true, in this order.
    pub fn roots(&self) -> &[u32]
        ensures roots { result.now ≡ self.now.roots }
        ensures front { BeginsWithRoots self.now }
    {
        self.roots.as_slice()
    }

    /// How many facts are the root path's.
    pub fn root_count(&self) -> usize
        ensures count { result ≡ root_count self.now }
        ensures within { result ≤ length self.now.facts }
    {
        self.roots.len()
    }

    /// Whether the fact stands on the path. A look-up, with no walk along the path.
    #[tactic(auto, using(crate::proofs::Lookups::fact_found))]
    pub fn has(&self, fact: &Fact) -> bool
        ensures { result ≡ has self.now.facts fact.now }
    {
        self.first_places.find(fact).is_some()
    }

    /// Whether the fact with this name and sign stands on the path. A look-up, with no walk along the path and no copy of a region.
    #[tactic(auto, using(crate::proofs::Lookups::fact_found))]
    pub fn has_named(&self, name: &FactName, sign: bool) -> bool
        ensures { result ≡ has self.now.facts (named name.now sign) }
    {
        self.first_places.find_named(name, sign).is_some()
    }

    /// The first place where the fact stands, from 0, or nothing where it doesn't. A look-up, with no walk along the path.
    #[tactic(auto, using(crate::proofs::Lookups::place_found))]
    pub fn first_place(&self, fact: &Fact) -> Option<usize>
        ensures { result ≡ first_place self.now.facts fact.now }
    {
        self.first_places.find(fact)
    }

    /// The row fact with this number, counted from 1 in path order, or nothing where there is none. A look-up, with no walk along the path.
    #[tactic(auto, using(crate::proofs::Lookups::row_found_at))]
    pub fn row(&self, number: u64) -> Option<&Row>
        ensures { option_copied result ≡ item_at (rows_of self.now.facts) number }
    {
        if number == 0 {
            return None;
        }
        row_at(
            self.facts.as_slice(),
            self.row_places.as_slice(),
            number as usize - 1,
        )
    }
}

/// A copy is equal.
impl Clone for Path {
    ghost use Rattle.std.specs.Prelude.{◌≡◌};

    ghost is_clone = { λ a b. b ≡ a };

    fn clone(&self) -> Result<Path, AllocError> {
        Ok(Path {
            roots: self.roots.clone()?,
            facts: self.facts.clone()?,
            first_places: self.first_places.clone()?,
            row_places: self.row_places.clone()?,
            before: self.before.clone()?,
        })
    }
}
