//! Sums, quotients and opposites of rows.

ghost use Rattle.std.specs.Prelude.{◌≡◌, ◌↔◌, ◌≤ℤ◌, pos, int_div, true, false, [], ◌∷◌, Ok, Err, IfOk, MatchResult};
ghost use Rattle.sc_terms.specs.Forms.{IsForm};
ghost use Rattle.sc_linear.specs.Exact.{unless_wide, computed, product, IsExact};
ghost use Rattle.sc_linear.specs.Rows.{added, divides, quotient, quotients, tightened, minus_one, flipped, opposite, opposite_operations, negated, single_row};
ghost use Rattle.sc_linear.specs.Laws.{IsSum, IsQuotient, IsOpposite};

use crate::exact::{LinearError, TightenError, times};
use crate::sums::RowSum;
use sc_terms::{Atom, Form, Memory, Row};
use std::alloc::{AllocError, Global};

/// The row of one atom: the coefficient times the atom is at most the bound. With the coefficient 0 it is a row without atoms. The only error is want of memory.
pub fn single(alloc: Global, coefficient: i128, atom: Atom, bound: i128) -> Result<Row, Memory>
    ensures { IfOk result (λ row. row ≡ single_row coefficient atom bound) }
{
    let mut terms = Vec::new(alloc);
    if coefficient != 0 {
        terms.push((coefficient, atom))?;
    }
    Ok(Row {
        form: Form::from_terms(terms),
        bound,
    })
}

/// The first row plus `m` times the second: each coefficient and the bound are `a`'s plus `m` times `b`'s. Where both rows hold and `m` is not negative, so does the sum.
///
/// The error `Wide` comes exactly where the exact result of a multiplication or an addition lies outside -2^127 to 2^127 - 1, and names the first such operation with its numbers: the coefficients of `b` in the order of the atoms come before the bound, and each product, of `m` and `b`'s number, before its sum, of `a`'s number and the product. Else the only error is want of memory.
pub fn add_scaled(alloc: Global, a: &Row, b: &Row, m: i128) -> Result<Row, LinearError>
    ensures exact { IsExact result (added a.now b.now m) }
    ensures sum { IfOk result (λ row. IsSum a.now b.now m row) }
{
    let sum = RowSum::of(alloc, a)?.plus(b, m)?;
    Ok(sum.into_row()?)
}

/// Whether each coefficient is a multiple of `g`.
fn divides(g: i128, form: &[(i128, Atom)]) -> bool
    requires { pos 1 ≤ℤ g }
    ensures { result ≡ divides g form.now }
{
    form.iter().all(|term| term.0 % g == 0)
}

fn divided(c: i128, g: i128) -> i128
    requires { pos 1 ≤ℤ g }
    ensures { result ≡ int_div c g }
{
    c / g
}

fn quotient(g: i128, term: &(i128, Atom)) -> Result<(i128, Atom), AllocError>
    requires { pos 1 ≤ℤ g }
    ensures { IfOk result (λ t. t ≡ quotient g term.now) }
{
    Ok((divided(term.0, g), term.1.clone()?))
}

/// The terms with each coefficient divided by `g`.
#[tactic(auto, using(crate::proofs::Scaling::one_divided))]
fn quotients(alloc: Global, g: i128, form: &[(i128, Atom)]) -> Result<Vec<(i128, Atom)>, AllocError>
    requires { pos 1 ≤ℤ g }
    ensures { IfOk result (λ terms. terms.items ≡ quotients g form.now) }
{
    let mut terms = Vec::new(alloc);
    for term in form {
        terms.push(quotient(g, term)?)?;
    }
    Ok(terms)
}

/// The row with each coefficient divided by `g`, which divides them, and the bound divided and rounded down.
#[tactic(auto, using(crate::proofs::Scaling::quotients_form))]
fn divided_row(alloc: Global, a: &Row, g: i128) -> Result<Row, AllocError>
    requires positive { pos 1 ≤ℤ g }
    requires divisible { divides g a.now.form ≡ true }
    ensures { IfOk result (λ row. row ≡ tightened a.now g) }
{
    let terms = quotients(alloc, g, a.form.terms())?;
    let bound = a.bound.div_euclid(g);
    Ok(Row {
        form: Form::from_terms(terms),
        bound,
    })
}

/// The row divided by `g`, which is at least 1: each coefficient divided, and the bound divided and rounded down. The same integers satisfy it as satisfy the row.
///
/// The error `NotDivisible` comes exactly where a coefficient is no multiple of `g`. Else the only error is want of memory. A row without atoms is divisible by every `g`.
#[tactic(auto, using(crate::proofs::Scaling::quotient_made))]
pub fn tighten(alloc: Global, a: &Row, g: i128) -> Result<Row, TightenError>
    requires { pos 1 ≤ℤ g }
    ensures ok { IfOk result (λ row. row ≡ tightened a.now g) }
    ensures divisible { (result ≡ Err TightenError.NotDivisible) ↔ (divides g a.now.form ≡ false) }
    ensures quotient { IfOk result (λ row. IsQuotient a.now g row) }
{
    if !divides(g, a.form.terms()) {
        return Err(TightenError::NotDivisible);
    }
    let row = divided_row(alloc, a, g)?;
    Ok(row)
}

/// The term times -1.
fn flipped(term: &(i128, Atom)) -> Result<(i128, Atom), LinearError>
    ensures { IsExact result (unless_wide (product minus_one term.now.0 ∷ []) (flipped term.now)) }
{
    let coefficient = times(-1, term.0)?;
    Ok((coefficient, term.1.clone()?))
}

/// The terms with each coefficient times -1.
#[tactic(auto, using(crate::proofs::Scaling::one_flipped, crate::proofs::Scaling::one_stops, crate::proofs::Scaling::all_flipped))]
fn opposite(alloc: Global, form: &[(i128, Atom)]) -> Result<Vec<(i128, Atom)>, LinearError>
    ensures { MatchResult result (λ terms. unless_wide (opposite_operations form.now) (opposite form.now) ≡ Ok terms.items) (λ e. IsExact (Err e) (unless_wide (opposite_operations form.now) (opposite form.now))) }
{
    let mut terms = Vec::new(alloc);
    for term in form {
        terms.push(flipped(term)?)?;
    }
    Ok(terms)
}

/// The row with each coefficient and the bound times -1, and the bound one less.
#[tactic(auto, using(crate::proofs::Scaling::turned_form, crate::proofs::Scaling::row_turned, crate::proofs::Scaling::row_stops))]
fn opposite_row(alloc: Global, a: &Row) -> Result<Row, LinearError>
    ensures exact { IsExact result (negated a.now) }
    ensures form { IsForm a.now.form }
{
    let terms = opposite(alloc, a.form.terms())?;
    let bound = -1 - a.bound;
    Ok(Row {
        form: Form::from_terms(terms),
        bound,
    })
}

/// The row that integers satisfy exactly where they don't satisfy this one: the form is at least the bound and one more. It is written with each coefficient times -1, at most -1 less the bound.
///
/// The error `Wide` comes exactly where a coefficient is -2^127, and names the product of -1 and the first such coefficient. The new bound always fits. Else the only error is want of memory.
#[tactic(auto, using(crate::proofs::Scaling::exact_gives_opposite))]
pub fn negate(alloc: Global, a: &Row) -> Result<Row, LinearError>
    ensures exact { IsExact result (negated a.now) }
    ensures opposite { IfOk result (λ row. IsOpposite a.now row) }
{
    opposite_row(alloc, a)
}
