//! The first places of a path's facts.

ghost use Rattle.std.specs.Prelude.{◌≡◌, [], length, Some, OnOk, OnErr};
ghost use Rattle.std.specs.Map.{lookup};
ghost use Rattle.sc_terms.specs.Same.{same_cube};
ghost use Rattle.sc_facts.specs.Facts.{named};
ghost use Rattle.sc_facts.specs.Same.{same_fact};
ghost use Rattle.sc_facts.specs.Paths.{places_of, with_place, with_first, front_of, regions_of, place_in};

use crate::fact::Fact;
use crate::name::FactName;
use indexmap::IndexMap;
use sc_terms::{Cube, Memory};
use std::alloc::{AllocError, Global};
use std::marker::Model;

/// How many entries the tables of a path have before a place.
#[derive(Clone, Copy)]
pub struct Before {
    pub plain: usize,
    pub empty: usize,
    pub filled: usize,
    pub rows: usize,
}

/// Each different fact of a path with the first place where it stands, from 0. Regions have tables of their own, so that the name of a fact is looked up without a copy of its region.
#[derive(Drop)]
pub struct FirstPlaces {
    /// The facts that do not say whether a region is empty.
    plain: IndexMap<Fact, usize>,
    /// The regions that are empty.
    empty: IndexMap<Cube, usize>,
    /// The regions that have an element.
    filled: IndexMap<Cube, usize>,
}

impl Model for FirstPlaces {
    ghost use Rattle.sc_facts.specs.Paths.{Places};

    ghost Value = { Places };

    ghost view = { λ p. record { plain = p.plain.entries; empty = p.empty.entries; filled = p.filled.entries } };
}

/// Notes the place of a fact that has none yet. Where memory is refused the places stay as they were.
#[tactic(auto, using(crate::proofs::Lookups::place_added))]
fn note_plain(places: &mut IndexMap<Fact, usize>, fact: &Fact, place: usize) -> Result<(), Memory>
    ensures ok { OnOk result (places.new.entries ≡ with_first same_fact places.old.entries (Some fact.now) place) }
    ensures err { OnErr result (places.new.entries ≡ places.old.entries) }
{
    if places.contains_key(fact) {
        return Ok(());
    }
    places.insert(fact.clone()?, place)?;
    Ok(())
}

/// Notes the place of a region that has none yet. Where memory is refused the places stay as they were.
#[tactic(auto, using(crate::proofs::Lookups::region_added))]
fn note_region(places: &mut IndexMap<Cube, usize>, cube: &Cube, place: usize) -> Result<(), Memory>
    ensures ok { OnOk result (places.new.entries ≡ with_first same_cube places.old.entries (Some cube.now) place) }
    ensures err { OnErr result (places.new.entries ≡ places.old.entries) }
{
    if places.contains_key(cube) {
        return Ok(());
    }
    places.insert(cube.clone()?, place)?;
    Ok(())
}

impl FirstPlaces {
    /// The places of no facts.
    pub fn new(alloc: Global) -> FirstPlaces
        ensures { result ≡ places_of [] }
    {
        FirstPlaces {
            plain: IndexMap::new(alloc),
            empty: IndexMap::new(alloc),
            filled: IndexMap::new(alloc),
        }
    }

    /// Notes the place of a fact that has none yet. Where memory is refused the places stay as they were.
    pub fn note(&mut self, fact: &Fact, place: usize) -> Result<(), Memory>
        ensures ok { OnOk result (self.new ≡ with_place self.old fact.now place) }
        ensures err { OnErr result (self.new ≡ self.old) }
    {
        match fact {
            Fact::Empty(cube, true) => note_region(&mut self.empty, cube, place),
            Fact::Empty(cube, false) => note_region(&mut self.filled, cube, place),
            _ => note_plain(&mut self.plain, fact, place),
        }
    }

    /// How many entries the tables have, with so many rows.
    pub fn counts(&self, rows: usize) -> Before
        ensures plain { result.plain ≡ length self.now.plain }
        ensures empty { result.empty ≡ length self.now.empty }
        ensures filled { result.filled ≡ length self.now.filled }
        ensures rows { result.rows ≡ rows }
    {
        Before {
            plain: self.plain.len(),
            empty: self.empty.len(),
            filled: self.filled.len(),
            rows,
        }
    }

    /// Keeps the first entries alone, so many as the counts say.
    pub fn truncate(&mut self, before: Before)
        ensures { self.new ≡ front_of self.old before }
    {
        self.plain.truncate(before.plain);
        self.empty.truncate(before.empty);
        self.filled.truncate(before.filled);
    }

    /// The first place of a region that is empty, or that has an element.
    fn region_place(&self, cube: &Cube, empty: bool) -> Option<usize>
        ensures { result ≡ lookup (same_cube cube.now) (regions_of self.now empty) }
    {
        if empty {
            self.empty.get(cube).copied()
        } else {
            self.filled.get(cube).copied()
        }
    }

    /// The first place of a fact.
    pub fn find(&self, fact: &Fact) -> Option<usize>
        ensures { result ≡ place_in self.now fact.now }
    {
        match fact {
            Fact::Empty(cube, empty) => self.region_place(cube, *empty),
            _ => self.plain.get(fact).copied(),
        }
    }

    /// The first place of the fact with this name and sign. No region is copied.
    pub fn find_named(&self, name: &FactName, sign: bool) -> Option<usize>
        ensures { result ≡ place_in self.now (named name.now sign) }
    {
        match name {
            FactName::Sign(f) => self.find(&Fact::Sign(*f, sign)),
            FactName::Member(e, s) => self.find(&Fact::Member(*e, *s, sign)),
            FactName::Eq(e, f) => self.find(&Fact::Eq(*e, *f, sign)),
            FactName::EqSet(s, t) => self.find(&Fact::EqSet(*s, *t, sign)),
            FactName::Empty(cube) => self.region_place(cube, sign),
        }
    }
}

/// A copy is equal.
impl Clone for FirstPlaces {
    ghost use Rattle.std.specs.Prelude.{◌≡◌};

    ghost is_clone = { λ a b. b ≡ a };

    fn clone(&self) -> Result<FirstPlaces, AllocError> {
        Ok(FirstPlaces {
            plain: self.plain.clone()?,
            empty: self.empty.clone()?,
            filled: self.filled.clone()?,
        })
    }
}
