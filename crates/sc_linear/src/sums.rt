//! Sums of multiples of rows.

ghost use Rattle.std.specs.Prelude.{◌≡◌, ◌+ℤ◌, ◌*ℤ◌, Ok, Err, IfOk, OnOk, MatchResult};
ghost use Rattle.std.specs.BTreeMap.{insert_entry};
ghost use Rattle.sc_terms.specs.Forms.{atom_cmp, IsForm};
ghost use Rattle.sc_linear.specs.Exact.{unless_wide, IsExact};
ghost use Rattle.sc_linear.specs.Rows.{coefficient, form_sum, form_operations, scaled_addition, added, zero_row};
ghost use Rattle.sc_linear.specs.Sums.{terms_of, with_coefficient};
ghost use Rattle.sc_linear.specs.Laws.{IsSum};

use crate::exact::{LinearError, Op};
use sc_terms::{Atom, Form, Memory, Row};
use std::alloc::{AllocError, Global};
use std::collections::BTreeMap;
use std::marker::Model;

/// A row to which multiples of rows are added, seen as the row. To add a row takes time for each of its terms, and none for those of the sum that it doesn't have.
#[derive(Drop)]
pub struct RowSum {
    alloc: Global,
    /// The coefficients that are not 0.
    coefficients: BTreeMap<Atom, i128>,
    bound: i128,
}

impl Model for RowSum {
    ghost use Rattle.sc_terms.specs.declared.form.Row.{Row};
    ghost use Rattle.sc_terms.specs.Forms.{IsForm};
    ghost use Rattle.sc_linear.specs.Sums.{terms_of};

    ghost Value = { Row };

    ghost view = { λ s. record { form = terms_of s.coefficients.entries; bound = s.bound } };

    ghost invariant = { λ s. IsForm (terms_of s.coefficients.entries) };
}

/// The coefficient of an atom, 0 where there is none.
#[tactic(auto, using(crate::proofs::Entries::looked_up))]
fn coefficient_of(coefficients: &BTreeMap<Atom, i128>, atom: &Atom) -> i128
    ensures { result ≡ coefficient atom.now (terms_of coefficients.now.entries) }
{
    coefficients.get(atom).copied().unwrap_or(0)
}

/// A copy of an atom.
fn copied(atom: &Atom) -> Result<Atom, AllocError>
    ensures { IfOk result (λ copy. copy ≡ atom.now) }
{
    atom.clone()
}

/// Enters the coefficient of an atom.
fn enter(
    coefficients: &mut BTreeMap<Atom, i128>,
    atom: Atom,
    coefficient: i128,
) -> Result<(), AllocError>
    ensures { OnOk result (coefficients.new.entries ≡ insert_entry atom_cmp coefficients.old.entries atom coefficient) }
{
    coefficients.insert(atom, coefficient)?;
    Ok(())
}

/// Gives an atom its coefficient.
fn set_coefficient(
    coefficients: &mut BTreeMap<Atom, i128>,
    atom: &Atom,
    coefficient: i128,
) -> Result<(), AllocError>
    requires { IsForm (terms_of coefficients.old.entries) }
    ensures { OnOk result (terms_of coefficients.new.entries ≡ with_coefficient coefficient atom.now (terms_of coefficients.old.entries)) }
{
    if coefficient == 0 {
        coefficients.remove(atom);
        return Ok(());
    }
    let copy = copied(atom)?;
    enter(coefficients, copy, coefficient)?;
    Ok(())
}

/// A number with m times another added.
fn scaled_sum(a: i128, b: i128, m: i128) -> Result<i128, LinearError>
    ensures { IsExact result (unless_wide (scaled_addition a b m) (a +ℤ (m *ℤ b))) }
{
    match m.checked_mul(b) {
        Some(product) => match a.checked_add(product) {
            Some(sum) => Ok(sum),
            None => Err(LinearError::Wide {
                op: Op::Add,
                a,
                b: product,
            }),
        },
        None => Err(LinearError::Wide {
            op: Op::Multiply,
            a: m,
            b,
        }),
    }
}

/// Adds m times the terms of a form.
#[tactic(auto, using(crate::proofs::Adding::none_left))]
fn add_terms(
    coefficients: &mut BTreeMap<Atom, i128>,
    terms: &[(i128, Atom)],
    m: i128,
) -> Result<(), LinearError>
    requires sum { IsForm (terms_of coefficients.old.entries) }
    requires terms { IsForm terms.now }
    ensures form { OnOk result (IsForm (terms_of coefficients.new.entries)) }
    ensures exact { MatchResult result (λ _. (unless_wide (form_operations m (terms_of coefficients.old.entries) terms.now) (form_sum m (terms_of coefficients.old.entries) terms.now)) ≡ Ok (terms_of coefficients.new.entries)) (λ e. IsExact (Err e) (unless_wide (form_operations m (terms_of coefficients.old.entries) terms.now) (form_sum m (terms_of coefficients.old.entries) terms.now))) }
{
    for term in terms {
        let coefficient = coefficient_of(coefficients, &term.1);
        match scaled_sum(coefficient, term.0, m) {
            Ok(sum) => match set_coefficient(coefficients, &term.1, sum) {
                Ok(()) => {}
                Err(_) => return Err(LinearError::Memory),
            },
            Err(e) => return Err(e),
        }
    }
    Ok(())
}

/// A map with these terms.
fn into_map(alloc: Global, terms: &[(i128, Atom)]) -> Result<BTreeMap<Atom, i128>, AllocError>
    requires { IsForm terms.now }
    ensures { IfOk result (λ coefficients. terms_of coefficients.entries ≡ terms.now) }
{
    let mut coefficients = BTreeMap::new(alloc);
    for term in terms {
        set_coefficient(&mut coefficients, &term.1, term.0)?;
    }
    Ok(coefficients)
}

/// The terms in the order of the atoms.
fn into_terms(
    alloc: Global,
    mut coefficients: BTreeMap<Atom, i128>,
) -> Result<Vec<(i128, Atom)>, AllocError>
    ensures { IfOk result (λ terms. terms.items ≡ terms_of coefficients.entries) }
{
    let mut terms = Vec::new(alloc);
    while let Some((atom, coefficient)) = coefficients.pop_first() {
        terms.push((coefficient, atom))?;
    }
    Ok(terms)
}

/// These terms up to a bound, with `m` times a row added.
fn sum_of(
    alloc: Global,
    mut coefficients: BTreeMap<Atom, i128>,
    bound: i128,
    row: &Row,
    m: i128,
) -> Result<RowSum, LinearError>
    requires { IsForm (terms_of coefficients.entries) }
    ensures exact { IsExact result (added (record { form = terms_of coefficients.entries; bound = bound }) row.now m) }
    ensures other { IsForm row.now.form }
{
    add_terms(&mut coefficients, row.form.terms(), m)?;
    let bound = scaled_sum(bound, row.bound, m)?;
    Ok(RowSum {
        alloc,
        coefficients,
        bound,
    })
}

impl RowSum {
    /// The row 0 <= 0.
    pub fn new(alloc: Global) -> RowSum
        ensures { result ≡ zero_row }
    {
        RowSum {
            alloc,
            coefficients: BTreeMap::new(alloc),
            bound: 0,
        }
    }

    /// A copy of a row. The only error is want of memory.
    pub fn of(alloc: Global, row: &Row) -> Result<RowSum, Memory>
        ensures { IfOk result (λ sum. sum ≡ row.now) }
    {
        Ok(RowSum {
            alloc,
            coefficients: into_map(alloc, row.form.terms())?,
            bound: row.bound,
        })
    }

    /// The row with `m` times another added.
    fn with_multiple(self, row: &Row, m: i128) -> Result<RowSum, LinearError>
        ensures exact { IsExact result (added self row.now m) }
        ensures form { IsForm self.form }
        ensures other { IsForm row.now.form }
    {
        let RowSum {
            alloc,
            coefficients,
            bound,
        } = self;
        sum_of(alloc, coefficients, bound, row, m)
    }

    /// The row with `m` times another added: each coefficient and the bound are this row's plus `m` times the other's.
    ///
    /// The error `Wide` comes exactly where the exact result of a multiplication or an addition lies outside -2^127 to 2^127 - 1, and names the first such operation with its numbers: the coefficients of `row` in the order of the atoms come before the bound, and each product, of `m` and the row's number, before its sum, of this row's number and the product. Else the only error is want of memory.
    #[tactic(auto, using(crate::proofs::Adding::exact_gives_sum))]
    pub fn plus(self, row: &Row, m: i128) -> Result<RowSum, LinearError>
        ensures exact { IsExact result (added self row.now m) }
        ensures sum { IfOk result (λ sum. IsSum self row.now m sum) }
    {
        self.with_multiple(row, m)
    }

    /// The row. The only error is want of memory.
    pub fn into_row(self) -> Result<Row, Memory>
        ensures { IfOk result (λ row. row ≡ self) }
    {
        let terms = into_terms(self.alloc, self.coefficients)?;
        Ok(Row {
            form: Form::from_terms(terms),
            bound: self.bound,
        })
    }
}
