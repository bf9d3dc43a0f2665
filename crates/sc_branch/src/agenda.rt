//! Which steps may apply next. What is said here is only tried, so a wrong hint costs time alone.

use sc_facts::{Fact, Path};
use sc_terms::{Formula, Memory, Problem};
use std::alloc::Global;

/// A formula with a sign.
#[derive(Clone, Copy)]
pub(crate) struct Signed {
    pub formula: u32,
    pub sign: bool,
}

/// What a fact says that is followed up.
#[derive(Clone, Copy)]
pub(crate) enum News {
    Sign(Signed),
    /// Whether an element is in a set.
    Member(u32, u32),
    /// Two elements are equal, or differ.
    Equal(u32, u32, bool),
    /// Two sets are equal, or differ.
    EqualSets(u32, u32, bool),
    /// Nothing, or what stands earlier on the path too.
    Nothing,
}

/// What a fact says that is followed up.
fn news_of(fact: &Fact) -> News {
    match fact {
        Fact::Sign(formula, sign) => News::Sign(Signed {
            formula: *formula,
            sign: *sign,
        }),
        Fact::Member(element, set, _) => News::Member(*element, *set),
        Fact::Eq(e, f, sign) => News::Equal(*e, *f, *sign),
        Fact::EqSet(s, t, sign) => News::EqualSets(*s, *t, *sign),
        Fact::Row(_) | Fact::Empty(_, _) => News::Nothing,
    }
}

/// How far a path was followed up.
#[derive(Drop)]
pub(crate) struct Agenda {
    /// How many parts of each `and` are not known to be true, and of each `or` not known to be false, by its number less 1.
    lacking: Vec<u32>,
    /// How many facts of the path were followed up.
    done: usize,
}

/// How many parts an `and` or an `or` has.
fn count_of(node: &Formula) -> u32 {
    match node {
        Formula::And(parts) | Formula::Or(parts) => {
            u32::try_from(parts.len()).unwrap_or(u32::MAX)
        }
        _ => 0,
    }
}

impl Agenda {
    /// Nothing was followed up yet.
    pub(crate) fn new(alloc: Global, problem: &Problem) -> Result<Agenda, Memory> {
        let mut lacking = Vec::new(alloc);
        for place in 0..problem.counts().formulas {
            lacking.push(count_of(problem.formula(place + 1)))?;
        }
        Ok(Agenda { lacking, done: 0 })
    }

    /// Whether nothing was followed up yet.
    pub(crate) fn is_fresh(&self) -> bool {
        self.done == 0
    }

    /// What the next fact says that is to be followed up, or nothing where all facts were.
    pub(crate) fn next(&mut self, path: &Path) -> Option<News> {
        let place = self.done;
        let fact = path.facts().get(place)?;
        self.done = place + 1;
        if path.first_place(fact) == Some(place) {
            return Some(news_of(fact));
        }
        Some(News::Nothing)
    }

    /// How many parts of an `and` are not known to be true, or of an `or` not known to be false.
    pub(crate) fn lacking(&self, formula: u32) -> u32 {
        if formula == 0 {
            return 0;
        }
        self.lacking.get(formula as usize - 1).copied().unwrap_or(0)
    }

    /// One part fewer is lacking.
    pub(crate) fn count_part(&mut self, formula: u32) {
        if formula == 0 {
            return;
        }
        if let Some(lacking) = self.lacking.get_mut(formula as usize - 1) {
            *lacking = lacking.saturating_sub(1);
        }
    }
}
