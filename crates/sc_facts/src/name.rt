//! Names of facts.

ghost use Rattle.std.specs.Prelude.{◌≡◌, IfOk};
ghost use Rattle.sc_facts.specs.Facts.{named};

use crate::fact::Fact;
use sc_terms::{Cube, Memory};
use std::alloc::AllocError;
use std::hash::{Hash, Hasher};

/// A fact that is no row, without its sign. Of two elements or sets the lower number comes first.
#[derive(Drop)]
pub enum FactName {
    Sign(u32),
    Member(u32, u32),
    Eq(u32, u32),
    EqSet(u32, u32),
    Empty(Cube),
}

impl FactName {
    /// The fact with this name and sign. The only error is want of memory.
    pub fn with_sign(&self, sign: bool) -> Result<Fact, Memory>
        ensures { IfOk result (λ fact. fact ≡ named self.now sign) }
    {
        match self {
            FactName::Sign(f) => Ok(Fact::Sign(*f, sign)),
            FactName::Member(e, s) => Ok(Fact::Member(*e, *s, sign)),
            FactName::Eq(e, f) => Ok(Fact::Eq(*e, *f, sign)),
            FactName::EqSet(s, t) => Ok(Fact::EqSet(*s, *t, sign)),
            FactName::Empty(cube) => Ok(Fact::Empty(cube.clone()?, sign)),
        }
    }
}

impl PartialEq for FactName {
    ghost use Rattle.std.specs.Cmp.{partial_equiv_from_equiv, decided};
    ghost use Rattle.sc_facts.specs.Same.{same_name, same_name-Decides};

    ghost eq = { same_name };

    ghost laws = { partial_equiv_from_equiv (decided same_name same_name-Decides) };

    fn eq(&self, other: &FactName) -> bool {
        match (self, other) {
            (FactName::Sign(f), FactName::Sign(g)) => f == g,
            (FactName::Member(e, s), FactName::Member(f, t)) => e == f && s == t,
            (FactName::Eq(e, f), FactName::Eq(g, h)) => e == g && f == h,
            (FactName::EqSet(s, t), FactName::EqSet(u, v)) => s == u && t == v,
            (FactName::Empty(c), FactName::Empty(d)) => c == d,
            _ => false,
        }
    }
}

impl Eq for FactName {
    ghost use Rattle.std.specs.Cmp.{decided};
    ghost use Rattle.sc_facts.specs.Same.{same_name, same_name-Decides};

    ghost laws = { decided same_name same_name-Decides };
}

impl Hash for FactName {
    ghost use Rattle.std.proofs.Common.{ap};
    ghost use Rattle.sc_facts.specs.Same.{same_name-Decides};
    ghost use Rattle.sc_facts.specs.Inputs.{name_input};

    ghost hash_input = { name_input };

    ghost respects_eq = { λ x y e. ap name_input ((same_name-Decides x y).0 e) };

    fn hash<H: Hasher>(&self, state: &mut H) {
        match self {
            FactName::Sign(f) => {
                state.write_u8(0);
                f.hash(state);
            }
            FactName::Member(e, s) => {
                state.write_u8(1);
                e.hash(state);
                s.hash(state);
            }
            FactName::Eq(e, f) => {
                state.write_u8(2);
                e.hash(state);
                f.hash(state);
            }
            FactName::EqSet(s, t) => {
                state.write_u8(3);
                s.hash(state);
                t.hash(state);
            }
            FactName::Empty(cube) => {
                state.write_u8(5);
                cube.hash(state);
            }
        }
    }
}

/// A copy is equal.
impl Clone for FactName {
    ghost use Rattle.std.specs.Prelude.{◌≡◌};

    ghost is_clone = { λ a b. b ≡ a };

    fn clone(&self) -> Result<FactName, AllocError> {
        match self {
            FactName::Sign(f) => Ok(FactName::Sign(*f)),
            FactName::Member(e, s) => Ok(FactName::Member(*e, *s)),
            FactName::Eq(e, f) => Ok(FactName::Eq(*e, *f)),
            FactName::EqSet(s, t) => Ok(FactName::EqSet(*s, *t)),
            FactName::Empty(cube) => Ok(FactName::Empty(cube.clone()?)),
        }
    }
}
