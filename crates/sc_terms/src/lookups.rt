//! Look-ups in the lists of a problem.

ghost use Rattle.std.specs.Prelude.{◌≡◌, ◌<◌, ◌^◌, length};
ghost use Rattle.std.specs.List.{list_any};
ghost use Rattle.sc_terms.specs.Lookup.{component_from, diff_from, element_form, formula_form, is_card_among, is_diff_of, is_listed};
ghost use Rattle.sc_terms.specs.Regions.{has_plus};

use crate::atoms::{Atom, Sign};
use crate::nodes::{Element, Formula, Numbers};

/// Whether the number is in the list.
pub fn is_listed(numbers: &[u32], number: u32) -> bool
    ensures { result ≡ is_listed number numbers.now }
{
    numbers.iter().any(|other| number == *other)
}

/// Whether one of the signs is a plus.
pub fn has_plus(signs: &[Sign]) -> bool
    ensures { result ≡ has_plus signs.now }
{
    signs.iter().any(|sign| matches!(sign, Sign::Plus))
}

/// The number of the first list that has this number.
pub fn first_with(lists: &[Numbers], number: u32) -> Option<u32>
    requires { length lists.now < 2 ^ 32 }
    ensures { result ≡ component_from 1 lists.now number }
{
    let mut place = 0;
    for list in lists {
        place += 1;
        if is_listed(list.as_slice(), number) {
            return Some(place);
        }
    }
    None
}

/// Whether the element is the differing element of two sets, in either order.
fn is_diff_of(element: &Element, s: u32, t: u32) -> bool
    ensures { result ≡ is_diff_of s t element.now }
{
    match element {
        Element::Diff(a, b) => (*a == s && *b == t) || (*a == t && *b == s),
        _ => false,
    }
}

/// The number of the first differing element of two sets.
pub fn first_diff(elements: &[Element], s: u32, t: u32) -> Option<u32>
    requires { length elements.now < 2 ^ 32 }
    ensures { result ≡ diff_from 1 elements.now s t }
{
    let mut place = 0;
    for element in elements {
        place += 1;
        if is_diff_of(element, s, t) {
            return Some(place);
        }
    }
    None
}

/// Whether the term is the card of one of these sets.
fn is_card_among(term: &(i128, Atom), among: &[u32]) -> bool
    ensures { result ≡ is_card_among among.now term.now }
{
    match &term.1 {
        Atom::Card(set) => is_listed(among, *set),
        _ => false,
    }
}

/// Whether a term is the card of one of these sets.
fn has_card(terms: &[(i128, Atom)], among: &[u32]) -> bool
    ensures { result ≡ list_any (is_card_among among.now) terms.now }
{
    terms.iter().any(|term| is_card_among(term, among))
}

/// Whether the formula's row has a card of one of these sets.
fn formula_counts(formula: &Formula, among: &[u32]) -> bool
    ensures { result ≡ list_any (is_card_among among.now) (formula_form formula.now) }
{
    match formula {
        Formula::Le(row) => has_card(row.form.terms(), among),
        _ => false,
    }
}

/// Whether the element's form has a card of one of these sets.
fn element_counts(element: &Element, among: &[u32]) -> bool
    ensures { result ≡ list_any (is_card_among among.now) (element_form element.now) }
{
    match element {
        Element::Number(affine) => has_card(affine.form.terms(), among),
        _ => false,
    }
}

/// Whether a formula has a card of one of these sets.
pub fn some_formula_counts(formulas: &[Formula], among: &[u32]) -> bool
    ensures { result ≡ list_any (λ f. list_any (is_card_among among.now) (formula_form f)) formulas.now }
{
    formulas
        .iter()
        .any(|formula| formula_counts(formula, among))
}

/// Whether an element has a card of one of these sets.
pub fn some_element_counts(elements: &[Element], among: &[u32]) -> bool
    ensures { result ≡ list_any (λ e. list_any (is_card_among among.now) (element_form e)) elements.now }
{
    elements
        .iter()
        .any(|element| element_counts(element, among))
}
