//! Facts.

use sc_terms::{Cube, Row};
use std::alloc::AllocError;
use std::hash::{Hash, Hasher};

/// A statement about the nodes of a problem, which are named by their numbers from 1. The sign of a fact is true for a plus and false for a minus, which denies it.
#[derive(Drop)]
pub enum Fact {
    /// The formula is true, or false.
    Sign(u32, bool),
    /// The element lies in the set, or doesn't.
    Member(u32, u32, bool),
    /// The elements, the lower number first, are equal, or not.
    Eq(u32, u32, bool),
    /// The sets, the lower number first, are equal, or not.
    EqSet(u32, u32, bool),
    /// The form is at most the bound.
    Row(Row),
    /// The region has no element, or has one.
    Empty(Cube, bool),
}

impl PartialEq for Fact {
    ghost use Rattle.std.specs.Cmp.{partial_equiv_from_equiv, decided};
    ghost use Rattle.sc_facts.specs.Same.{same_fact, same_fact-Decides};

    ghost eq = { same_fact };

    ghost laws = { partial_equiv_from_equiv (decided same_fact same_fact-Decides) };

    fn eq(&self, other: &Fact) -> bool {
        match (self, other) {
            (Fact::Sign(f, s), Fact::Sign(g, t)) => f == g && s == t,
            (Fact::Member(e, s, a), Fact::Member(f, t, b)) => e == f && s == t && a == b,
            (Fact::Eq(e, f, a), Fact::Eq(g, h, b)) => e == g && f == h && a == b,
            (Fact::EqSet(s, t, a), Fact::EqSet(u, v, b)) => s == u && t == v && a == b,
            (Fact::Row(a), Fact::Row(b)) => a == b,
            (Fact::Empty(c, a), Fact::Empty(d, b)) => c == d && a == b,
            _ => false,
        }
    }
}

impl Eq for Fact {
    ghost use Rattle.std.specs.Cmp.{decided};
    ghost use Rattle.sc_facts.specs.Same.{same_fact, same_fact-Decides};

    ghost laws = { decided same_fact same_fact-Decides };
}

impl Hash for Fact {
    ghost use Rattle.std.proofs.Common.{ap};
    ghost use Rattle.sc_facts.specs.Same.{same_fact-Decides};
    ghost use Rattle.sc_facts.specs.Inputs.{fact_input};

    ghost hash_input = { fact_input };

    ghost respects_eq = { λ x y e. ap fact_input ((same_fact-Decides x y).0 e) };

    fn hash<H: Hasher>(&self, state: &mut H) {
        match self {
            Fact::Sign(f, s) => {
                state.write_u8(0);
                f.hash(state);
                s.hash(state);
            }
            Fact::Member(e, s, b) => {
                state.write_u8(1);
                e.hash(state);
                s.hash(state);
                b.hash(state);
            }
            Fact::Eq(e, f, b) => {
                state.write_u8(2);
                e.hash(state);
                f.hash(state);
                b.hash(state);
            }
            Fact::EqSet(s, t, b) => {
                state.write_u8(3);
                s.hash(state);
                t.hash(state);
                b.hash(state);
            }
            Fact::Row(row) => {
                state.write_u8(4);
                row.hash(state);
            }
            Fact::Empty(cube, b) => {
                state.write_u8(5);
                cube.hash(state);
                b.hash(state);
            }
        }
    }
}

/// A copy is equal.
impl Clone for Fact {
    ghost use Rattle.std.specs.Prelude.{◌≡◌};

    ghost is_clone = { λ a b. b ≡ a };

    fn clone(&self) -> Result<Fact, AllocError> {
        match self {
            Fact::Sign(f, s) => Ok(Fact::Sign(*f, *s)),
            Fact::Member(e, s, b) => Ok(Fact::Member(*e, *s, *b)),
            Fact::Eq(e, f, b) => Ok(Fact::Eq(*e, *f, *b)),
            Fact::EqSet(s, t, b) => Ok(Fact::EqSet(*s, *t, *b)),
            Fact::Row(row) => Ok(Fact::Row(row.clone()?)),
            Fact::Empty(cube, b) => Ok(Fact::Empty(cube.clone()?, *b)),
        }
    }
}
