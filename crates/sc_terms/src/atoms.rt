//! Integer atoms of rows, and the regions whose sizes they may be.

ghost use Rattle.std.specs.Prelude.{◌≡◌};
ghost use Rattle.sc_terms.specs.Forms.{kind_of};

use sc_base::Sequence;
use std::alloc::AllocError;
use std::cmp::Ordering;
use std::hash::{Hash, Hasher};

/// Whether a region lies inside a set or outside it. Inside comes first.
#[derive(Clone, Copy, Debug)]
pub enum Sign {
    /// Inside, written `+`.
    Plus,
    /// Outside, written `-`.
    Minus,
}

/// The signs of a region's word, one for each of the first sets of a basis.
pub type Signs = Sequence<Sign>;

/// A region of a component's Venn diagram: what lies inside each basis set whose sign is plus, and outside each whose sign is minus. Basis sets past the word are open.
#[derive(Drop)]
pub struct Cube {
    /// The component's number, from 1.
    pub component: u32,
    /// At least one plus, and at most as many signs as the basis is long.
    pub signs: Signs,
}

/// What a row counts. The order is that of the variants, then of the numbers, and that of words for regions: a front comes before what it begins.
#[derive(Drop)]
pub enum Atom {
    /// An Int constant of the problem, by its number.
    Int(u32),
    /// The number of members of a set term.
    Card(u32),
    /// The value of an element that is the differing element of two sets of integers.
    Diff(u32),
    /// The number of integers in a region.
    Size(Cube),
}

impl PartialEq for Sign {
    ghost use Rattle.std.specs.Cmp.{partial_equiv_from_equiv, decided};
    ghost use Rattle.sc_terms.specs.Same.{same_sign, same_sign-Decides};

    ghost eq = { same_sign };

    ghost laws = { partial_equiv_from_equiv (decided same_sign same_sign-Decides) };

    fn eq(&self, other: &Sign) -> bool {
        match (self, other) {
            (Sign::Plus, Sign::Plus) => true,
            (Sign::Minus, Sign::Minus) => true,
            _ => false,
        }
    }
}

impl Eq for Sign {
    ghost use Rattle.std.specs.Cmp.{decided};
    ghost use Rattle.sc_terms.specs.Same.{same_sign, same_sign-Decides};

    ghost laws = { decided same_sign same_sign-Decides };
}

impl Hash for Sign {
    ghost use Rattle.std.proofs.Common.{ap};
    ghost use Rattle.sc_terms.specs.Same.{same_sign-Decides};
    ghost use Rattle.sc_terms.specs.Inputs.{sign_input};

    ghost hash_input = { sign_input };

    ghost respects_eq = { λ x y e. ap sign_input ((same_sign-Decides x y).0 e) };

    fn hash<H: Hasher>(&self, state: &mut H) {
        match self {
            Sign::Plus => state.write_u8(0),
            Sign::Minus => state.write_u8(1),
        }
    }
}

impl PartialEq for Cube {
    ghost use Rattle.std.specs.Cmp.{partial_equiv_from_equiv, decided};
    ghost use Rattle.sc_terms.specs.Same.{same_cube, same_cube-Decides};

    ghost eq = { same_cube };

    ghost laws = { partial_equiv_from_equiv (decided same_cube same_cube-Decides) };

    fn eq(&self, other: &Cube) -> bool {
        self.component == other.component && self.signs == other.signs
    }
}

impl Eq for Cube {
    ghost use Rattle.std.specs.Cmp.{decided};
    ghost use Rattle.sc_terms.specs.Same.{same_cube, same_cube-Decides};

    ghost laws = { decided same_cube same_cube-Decides };
}

impl Hash for Cube {
    ghost use Rattle.std.proofs.Common.{ap};
    ghost use Rattle.sc_terms.specs.Same.{same_cube-Decides};
    ghost use Rattle.sc_terms.specs.Inputs.{cube_input};

    ghost hash_input = { cube_input };

    ghost respects_eq = { λ x y e. ap cube_input ((same_cube-Decides x y).0 e) };

    fn hash<H: Hasher>(&self, state: &mut H) {
        self.component.hash(state);
        self.signs.hash(state);
    }
}

impl PartialEq for Atom {
    ghost use Rattle.std.specs.Cmp.{partial_equiv_from_equiv, decided};
    ghost use Rattle.sc_terms.specs.Same.{same_atom, same_atom-Decides};

    ghost eq = { same_atom };

    ghost laws = { partial_equiv_from_equiv (decided same_atom same_atom-Decides) };

    fn eq(&self, other: &Atom) -> bool {
        match (self, other) {
            (Atom::Int(m), Atom::Int(n)) => m == n,
            (Atom::Card(m), Atom::Card(n)) => m == n,
            (Atom::Diff(m), Atom::Diff(n)) => m == n,
            (Atom::Size(a), Atom::Size(b)) => a == b,
            _ => false,
        }
    }
}

impl Eq for Atom {
    ghost use Rattle.std.specs.Cmp.{decided};
    ghost use Rattle.sc_terms.specs.Same.{same_atom, same_atom-Decides};

    ghost laws = { decided same_atom same_atom-Decides };
}

impl Hash for Atom {
    ghost use Rattle.std.proofs.Common.{ap};
    ghost use Rattle.sc_terms.specs.Same.{same_atom-Decides};
    ghost use Rattle.sc_terms.specs.Inputs.{atom_input};

    ghost hash_input = { atom_input };

    ghost respects_eq = { λ x y e. ap atom_input ((same_atom-Decides x y).0 e) };

    fn hash<H: Hasher>(&self, state: &mut H) {
        match self {
            Atom::Int(n) => {
                state.write_u8(0);
                n.hash(state);
            }
            Atom::Card(n) => {
                state.write_u8(1);
                n.hash(state);
            }
            Atom::Diff(n) => {
                state.write_u8(2);
                n.hash(state);
            }
            Atom::Size(cube) => {
                state.write_u8(3);
                cube.hash(state);
            }
        }
    }
}

impl PartialOrd for Sign {
    ghost use Rattle.std.specs.Prelude.{Some};
    ghost use Rattle.std.specs.Cmp.{po};
    ghost use Rattle.sc_terms.specs.Forms.{sign_cmp};
    ghost use Rattle.sc_terms.specs.Orders.{sign_total, sign_ties};

    ghost partial_cmp = { λ a b. Some (sign_cmp a b) };

    ghost laws = { po sign_total sign_ties };

    fn partial_cmp(&self, other: &Sign) -> Option<Ordering> {
        Some(self.cmp(other))
    }
}

impl Ord for Sign {
    ghost use Rattle.std.specs.Prelude.{refl};
    ghost use Rattle.sc_terms.specs.Forms.{sign_cmp};
    ghost use Rattle.sc_terms.specs.Orders.{sign_total, sign_ties};

    ghost cmp = { sign_cmp };

    ghost total = { sign_total };

    ghost matches_partial_cmp = { λ a b. refl };

    ghost matches_eq = { sign_ties };

    fn cmp(&self, other: &Sign) -> Ordering {
        match (self, other) {
            (Sign::Plus, Sign::Minus) => Ordering::Less,
            (Sign::Minus, Sign::Plus) => Ordering::Greater,
            _ => Ordering::Equal,
        }
    }
}

impl PartialOrd for Cube {
    ghost use Rattle.std.specs.Prelude.{Some};
    ghost use Rattle.std.specs.Cmp.{po};
    ghost use Rattle.sc_terms.specs.Forms.{cube_cmp};
    ghost use Rattle.sc_terms.specs.Orders.{cube_total, cube_ties};

    ghost partial_cmp = { λ a b. Some (cube_cmp a b) };

    ghost laws = { po cube_total cube_ties };

    fn partial_cmp(&self, other: &Cube) -> Option<Ordering> {
        Some(self.cmp(other))
    }
}

impl Ord for Cube {
    ghost use Rattle.std.specs.Prelude.{refl};
    ghost use Rattle.sc_terms.specs.Forms.{cube_cmp};
    ghost use Rattle.sc_terms.specs.Orders.{cube_total, cube_ties};

    ghost cmp = { cube_cmp };

    ghost total = { cube_total };

    ghost matches_partial_cmp = { λ a b. refl };

    ghost matches_eq = { cube_ties };

    fn cmp(&self, other: &Cube) -> Ordering {
        match self.component.cmp(&other.component) {
            Ordering::Equal => self.signs.cmp(&other.signs),
            unequal => unequal,
        }
    }
}

impl Atom {
    /// The place of the variant among the variants.
    fn kind(&self) -> u32
        ensures { result ≡ kind_of self.now }
    {
        match self {
            Atom::Int(_) => 0,
            Atom::Card(_) => 1,
            Atom::Diff(_) => 2,
            Atom::Size(_) => 3,
        }
    }
}

impl PartialOrd for Atom {
    ghost use Rattle.std.specs.Prelude.{Some};
    ghost use Rattle.std.specs.Cmp.{po};
    ghost use Rattle.sc_terms.specs.Forms.{atom_cmp};
    ghost use Rattle.sc_terms.specs.Orders.{atom_total, atom_ties};

    ghost partial_cmp = { λ a b. Some (atom_cmp a b) };

    ghost laws = { po atom_total atom_ties };

    fn partial_cmp(&self, other: &Atom) -> Option<Ordering> {
        Some(self.cmp(other))
    }
}

impl Ord for Atom {
    ghost use Rattle.std.specs.Prelude.{refl};
    ghost use Rattle.sc_terms.specs.Forms.{atom_cmp};
    ghost use Rattle.sc_terms.specs.Orders.{atom_total, atom_ties};

    ghost cmp = { atom_cmp };

    ghost total = { atom_total };

    ghost matches_partial_cmp = { λ a b. refl };

    ghost matches_eq = { atom_ties };

    fn cmp(&self, other: &Atom) -> Ordering {
        match (self, other) {
            (Atom::Int(m), Atom::Int(n)) => m.cmp(n),
            (Atom::Card(m), Atom::Card(n)) => m.cmp(n),
            (Atom::Diff(m), Atom::Diff(n)) => m.cmp(n),
            (Atom::Size(a), Atom::Size(b)) => a.cmp(b),
            _ => self.kind().cmp(&other.kind()),
        }
    }
}

/// A copy is equal.
impl Clone for Cube {
    ghost use Rattle.std.specs.Prelude.{◌≡◌};

    ghost is_clone = { λ a b. b ≡ a };

    fn clone(&self) -> Result<Cube, AllocError> {
        Ok(Cube {
            component: self.component,
            signs: self.signs.clone()?,
        })
    }
}

/// A copy is equal.
impl Clone for Atom {
    ghost use Rattle.std.specs.Prelude.{◌≡◌};

    ghost is_clone = { λ a b. b ≡ a };

    fn clone(&self) -> Result<Atom, AllocError> {
        match self {
            Atom::Int(n) => Ok(Atom::Int(*n)),
            Atom::Card(n) => Ok(Atom::Card(*n)),
            Atom::Diff(n) => Ok(Atom::Diff(*n)),
            Atom::Size(cube) => Ok(Atom::Size(cube.clone()?)),
        }
    }
}
