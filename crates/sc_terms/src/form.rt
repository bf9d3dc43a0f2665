//! Linear forms over atoms.

ghost use Rattle.std.specs.Prelude.{◌≡◌, [], IfOk};
ghost use Rattle.sc_terms.specs.Forms.{IsForm};

use crate::atoms::Atom;
use std::alloc::{AllocError, Global};
use std::hash::{Hash, Hasher};
use std::marker::Model;

/// A sum of atoms with coefficients, seen as the list of its pairs of a coefficient and an atom: the atoms ascend, and no coefficient is 0.
#[derive(Drop)]
pub struct Form {
    terms: Vec<(i128, Atom)>,
}

impl Model for Form {
    ghost use Rattle.std.specs.Prelude.{List, ℤ};
    ghost use Rattle.sc_terms.specs.declared.atoms.Atom.{Atom};
    ghost use Rattle.sc_terms.specs.Forms.{IsForm};

    ghost Value = { List (ℤ × Atom) };

    ghost view = { λ f. f.terms.items };

    ghost invariant = { λ f. IsForm f.terms.items };
}

impl Form {
    /// The sum of nothing.
    pub fn zero(alloc: Global) -> Form
        ensures { result ≡ [] }
    {
        Form {
            terms: Vec::new(alloc),
        }
    }

    /// The sum of these terms; takes no memory.
    pub fn from_terms(terms: Vec<(i128, Atom)>) -> Form
        requires { IsForm terms.items }
        ensures { result ≡ terms.items }
    {
        Form { terms }
    }

    /// The pairs of a coefficient and an atom, in the order of the atoms.
    pub fn terms(&self) -> &[(i128, Atom)]
        ensures terms { result.now ≡ self.now }
        ensures form { IsForm self.now }
    {
        self.terms.as_slice()
    }
}

/// A form with a constant.
#[derive(Drop)]
pub struct Affine {
    pub form: Form,
    pub constant: i128,
}

/// The form is at most the bound.
#[derive(Drop)]
pub struct Row {
    pub form: Form,
    pub bound: i128,
}

impl PartialEq for Form {
    ghost use Rattle.std.specs.Cmp.{partial_equiv_from_equiv, decided};
    ghost use Rattle.sc_terms.specs.Same.{same_form, same_form-Decides};

    ghost eq = { same_form };

    ghost laws = { partial_equiv_from_equiv (decided same_form same_form-Decides) };

    fn eq(&self, other: &Form) -> bool {
        self.terms.as_slice() == other.terms.as_slice()
    }
}

impl Eq for Form {
    ghost use Rattle.std.specs.Cmp.{decided};
    ghost use Rattle.sc_terms.specs.Same.{same_form, same_form-Decides};

    ghost laws = { decided same_form same_form-Decides };
}

impl Hash for Form {
    ghost use Rattle.std.proofs.Common.{ap};
    ghost use Rattle.sc_terms.specs.Same.{same_form-Decides};
    ghost use Rattle.sc_terms.specs.Inputs.{form_input};

    ghost hash_input = { form_input };

    ghost respects_eq = { λ x y e. ap form_input ((same_form-Decides x y).0 e) };

    fn hash<H: Hasher>(&self, state: &mut H) {
        self.terms.as_slice().hash(state);
    }
}

impl PartialEq for Affine {
    ghost use Rattle.std.specs.Cmp.{partial_equiv_from_equiv, decided};
    ghost use Rattle.sc_terms.specs.Same.{same_affine, same_affine-Decides};

    ghost eq = { same_affine };

    ghost laws = { partial_equiv_from_equiv (decided same_affine same_affine-Decides) };

    fn eq(&self, other: &Affine) -> bool {
        self.form == other.form && self.constant == other.constant
    }
}

impl Eq for Affine {
    ghost use Rattle.std.specs.Cmp.{decided};
    ghost use Rattle.sc_terms.specs.Same.{same_affine, same_affine-Decides};

    ghost laws = { decided same_affine same_affine-Decides };
}

impl Hash for Affine {
    ghost use Rattle.std.proofs.Common.{ap};
    ghost use Rattle.sc_terms.specs.Same.{same_affine-Decides};
    ghost use Rattle.sc_terms.specs.Inputs.{affine_input};

    ghost hash_input = { affine_input };

    ghost respects_eq = { λ x y e. ap affine_input ((same_affine-Decides x y).0 e) };

    fn hash<H: Hasher>(&self, state: &mut H) {
        self.form.hash(state);
        self.constant.hash(state);
    }
}

impl PartialEq for Row {
    ghost use Rattle.std.specs.Cmp.{partial_equiv_from_equiv, decided};
    ghost use Rattle.sc_terms.specs.Same.{same_row, same_row-Decides};

    ghost eq = { same_row };

    ghost laws = { partial_equiv_from_equiv (decided same_row same_row-Decides) };

    fn eq(&self, other: &Row) -> bool {
        self.form == other.form && self.bound == other.bound
    }
}

impl Eq for Row {
    ghost use Rattle.std.specs.Cmp.{decided};
    ghost use Rattle.sc_terms.specs.Same.{same_row, same_row-Decides};

    ghost laws = { decided same_row same_row-Decides };
}

impl Hash for Row {
    ghost use Rattle.std.proofs.Common.{ap};
    ghost use Rattle.sc_terms.specs.Same.{same_row-Decides};
    ghost use Rattle.sc_terms.specs.Inputs.{row_input};

    ghost hash_input = { row_input };

    ghost respects_eq = { λ x y e. ap row_input ((same_row-Decides x y).0 e) };

    fn hash<H: Hasher>(&self, state: &mut H) {
        self.form.hash(state);
        self.bound.hash(state);
    }
}

/// A copy is equal.
impl Clone for Form {
    ghost use Rattle.std.specs.Prelude.{◌≡◌};

    ghost is_clone = { λ a b. b ≡ a };

    fn clone(&self) -> Result<Form, AllocError> {
        Ok(Form {
            terms: self.terms.clone()?,
        })
    }
}

/// A copy is equal.
impl Clone for Affine {
    ghost use Rattle.std.specs.Prelude.{◌≡◌};

    ghost is_clone = { λ a b. b ≡ a };

    fn clone(&self) -> Result<Affine, AllocError> {
        Ok(Affine {
            form: self.form.clone()?,
            constant: self.constant,
        })
    }
}

/// A copy is equal.
impl Clone for Row {
    ghost use Rattle.std.specs.Prelude.{◌≡◌};

    ghost is_clone = { λ a b. b ≡ a };

    fn clone(&self) -> Result<Row, AllocError> {
        Ok(Row {
            form: self.form.clone()?,
            bound: self.bound,
        })
    }
}
