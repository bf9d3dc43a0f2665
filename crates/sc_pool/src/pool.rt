//! Pools.

ghost use Rattle.std.specs.Prelude.{◌≡◌, ◌<◌, List, [], ◌∷◌, ◌++◌, length, slice_get, if◌then◌else◌, IfOk, OnOk, OnErr, Some, None};
ghost use Rattle.std.specs.Option.{option_or};
ghost use Rattle.sc_pool.specs.Pools.{first_where, all_stand, least_applying};
ghost use Rattle.sc_pool.specs.Index.{is_free, last_fact, with_last, under_last, lesser, stands_under};

use indexmap::IndexMap;
use sc_facts::{Fact, Facts, Path};
use sc_terms::Memory;
use std::alloc::Global;
use std::marker::Model;

/// Lemmas in the order in which they were added, seen as the list of their hypotheses. The first has the number 1.
#[derive(Drop)]
pub struct Pool {
    lemmas: Vec<Facts>,
    /// Under each fact the place of the last lemma of which it is the last hypothesis.
    latest: IndexMap<Fact, usize>,
    /// For each lemma the place of the last one before it with the same last hypothesis.
    earlier: Vec<Option<usize>>,
    /// The place of the first lemma without hypotheses.
    free: Option<usize>,
}

impl Model for Pool {
    ghost use Rattle.std.specs.Prelude.{List};
    ghost use Rattle.sc_facts.specs.declared.fact.Fact.{Fact};
    ghost use Rattle.sc_pool.specs.Index.{IsIndexed};

    ghost Value = { List (List Fact) };

    ghost view = { λ p. p.lemmas.items };

    ghost invariant = { λ p. IsIndexed p.lemmas.items p.latest.entries p.earlier.items p.free };
}

/// Whether all hypotheses stand on the path: a look-up for each.
fn all_stand(path: &Path, hypotheses: &[Fact]) -> bool
    ensures { result ≡ all_stand path.now.facts hypotheses.now }
{
    hypotheses.iter().all(|fact| path.has(fact))
}

/// The lesser of two places, where there are two.
fn lesser(first: Option<usize>, second: Option<usize>) -> Option<usize>
    ensures { result ≡ lesser first second }
{
    match (first, second) {
        (None, other) => other,
        (one, None) => one,
        (Some(m), Some(n)) => { if n < m { Some(n) } else { Some(m) } }
    }
}

/// Notes the place of a lemma under its last hypothesis, and tells the place that stood there. Where memory is refused the table stays as it was.
fn note_last(
    latest: &mut IndexMap<Fact, usize>,
    hypotheses: &[Fact],
    place: usize,
) -> Result<Option<usize>, Memory>
    ensures ok { OnOk result (latest.new.entries ≡ with_last latest.old.entries (last_fact hypotheses.now) place) }
    ensures earlier { IfOk result (λ earlier. earlier ≡ under_last latest.old.entries (last_fact hypotheses.now)) }
    ensures err { OnErr result (latest.new.entries ≡ latest.old.entries) }
{
    match hypotheses.last() {
        Some(fact) => Ok(latest.insert(fact.clone()?, place)?),
        None => Ok(None),
    }
}

/// The place of the first lemma without hypotheses, where one more stands at the place.
fn first_free(free: Option<usize>, hypotheses: &[Fact], place: usize) -> Option<usize>
    ensures { result ≡ option_or free (if is_free hypotheses.now then Some place else None) }
{
    match free {
        None if hypotheses.is_empty() => Some(place),
        _ => free,
    }
}

impl Pool {
    /// A pool of no lemmas. Takes no memory.
    pub fn new(alloc: Global) -> Pool
        ensures { result ≡ [] }
    {
        Pool {
            lemmas: Vec::new(alloc),
            latest: IndexMap::new(alloc),
            earlier: Vec::new(alloc),
            free: None,
        }
    }

    /// How many lemmas there are.
    pub fn len(&self) -> usize
        ensures { result ≡ length self.now }
    {
        self.lemmas.len()
    }

    /// Adds a lemma with these hypotheses at the end, and tells its number, counted from 1. The only error is want of memory, with which the pool stays as it was.
    pub fn add(&mut self, hypotheses: Facts) -> Result<u64, Memory>
        ensures ok { OnOk result (self.new ≡ self.old ++ hypotheses ∷ []) }
        ensures number { IfOk result (λ number. number ≡ length self.new) }
        ensures err { OnErr result (self.new ≡ self.old) }
    {
        let place = self.lemmas.len();
        self.lemmas.reserve(1)?;
        self.earlier.reserve(1)?;
        let earlier = note_last(&mut self.latest, hypotheses.as_slice(), place)?;
        self.free = first_free(self.free, hypotheses.as_slice(), place);
        self.earlier.push_reserved(earlier);
        self.lemmas.push_reserved(hypotheses);
        Ok(place as u64 + 1)
    }

    /// The lemma's place, where all its hypotheses stand on the path, and else the one that was known.
    fn judged(&self, path: &Path, place: usize, known: Option<usize>) -> Option<usize>
        requires { place < length self.now }
        ensures { (hypotheses : List Fact) → slice_get self.now place ≡ Some hypotheses → result ≡ (if all_stand path.now.facts hypotheses then Some place else known) }
    {
        if all_stand(path, self.lemmas[place].as_slice()) {
            Some(place)
        } else {
            known
        }
    }

    /// The first place of a lemma that applies to the path, among those of which the fact is the last hypothesis.
    fn least_under(&self, path: &Path, fact: &Fact) -> Option<usize>
        ensures { result ≡ first_where (stands_under path.now.facts fact.now) self.now }
    {
        let mut least = None;
        let mut next = self.latest.get(fact).copied();
        while let Some(place) = next {
            least = self.judged(path, place, least);
            next = self.earlier[place];
        }
        least
    }

    /// The least number, counted from 1, of a lemma whose hypotheses all stand on the path, or nothing where there is no such lemma. Takes no memory. It costs a look-up for each fact of the path, and for each lemma of which this is the last hypothesis one for each of its hypotheses.
    pub fn applies(&self, path: &Path) -> Option<u64>
        ensures { result ≡ least_applying self.now path.now.facts }
    {
        let mut least = self.free;
        for fact in path.facts() {
            least = lesser(least, self.least_under(path, fact));
        }
        Some(least? as u64 + 1)
    }
}
