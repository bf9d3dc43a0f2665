//! The Boolean steps.

ghost use Rattle.std.specs.Prelude.{◌≡◌, ◌≤◌, IsSome, length};
ghost use Rattle.sc_rules.specs.Boolean as spec;

use crate::pairs::{equal_fact, first_sign, same_set_fact};
use sc_base::item_at;
use sc_facts::{Fact, Path};
use sc_terms::{Formula, Problem};

pub fn has_sign(path: &Path, formula: u32, sign: bool) -> bool
    ensures { result ≡ spec.sign path.now.facts formula sign }
{
    path.has(&Fact::Sign(formula, sign))
}

/// The sign that a path gives a formula, a plus where it gives both; nothing exactly where it gives none.
pub fn sign_of(path: &Path, formula: u32) -> Option<bool>
    ensures { result ≡ spec.sign_of path.now.facts formula }
{
    first_sign(
        has_sign(path, formula, true),
        has_sign(path, formula, false),
    )
}

pub fn all_have(path: &Path, formulas: &[u32], sign: bool) -> bool
    ensures { result ≡ spec.all_have path.now.facts formulas.now sign }
{
    formulas
        .iter()
        .all(|formula| has_sign(path, *formula, sign))
}

fn some_has(path: &Path, formulas: &[u32], sign: bool) -> bool
    ensures { result ≡ spec.some_has path.now.facts formulas.now sign }
{
    formulas
        .iter()
        .any(|formula| has_sign(path, *formula, sign))
}

fn agree(path: &Path, f: u32, g: u32) -> bool
    ensures { result ≡ spec.agree path.now.facts f g }
{
    (has_sign(path, f, true) && has_sign(path, g, true))
        || (has_sign(path, f, false) && has_sign(path, g, false))
}

fn differ(path: &Path, f: u32, g: u32) -> bool
    ensures { result ≡ spec.differ path.now.facts f g }
{
    (has_sign(path, f, true) && has_sign(path, g, false))
        || (has_sign(path, f, false) && has_sign(path, g, true))
}

/// The sign that a formula's parts, by their signs on the path, force on it, a plus where they force both; nothing exactly where they force none.
pub fn own_sign(path: &Path, node: &Formula) -> Option<bool>
    ensures { result ≡ spec.own_sign path.now.facts node.now }
{
    match node {
        Formula::True => Some(true),
        Formula::False => Some(false),
        Formula::Not(f) => first_sign(has_sign(path, *f, false), has_sign(path, *f, true)),
        Formula::And(parts) => first_sign(
            all_have(path, parts.as_slice(), true),
            some_has(path, parts.as_slice(), false),
        ),
        Formula::Or(parts) => first_sign(
            some_has(path, parts.as_slice(), true),
            all_have(path, parts.as_slice(), false),
        ),
        Formula::Iff(f, g) => first_sign(agree(path, *f, *g), differ(path, *f, *g)),
        _ => None,
    }
}

/// The part with a number that counts from 1.
pub fn part_at(node: &Formula, place: u32) -> Option<u32>
    ensures { result ≡ spec.part_at node.now place }
{
    match node {
        Formula::Not(f) if place == 1 => Some(*f),
        Formula::Iff(f, _) if place == 1 => Some(*f),
        Formula::Iff(_, g) if place == 2 => Some(*g),
        Formula::And(parts) | Formula::Or(parts) => item_at(parts.as_slice(), place).copied(),
        _ => None,
    }
}

pub fn others_have(path: &Path, parts: &[u32], place: usize, sign: bool) -> bool
    requires first { 1 ≤ place }
    requires last { place ≤ length parts.now }
    ensures { result ≡ spec.others_have path.now.facts parts.now place sign }
{
    all_have(path, &parts[..place - 1], sign) && all_have(path, &parts[place..], sign)
}

/// The sign that a formula and its other parts force on one of its parts.
fn part_sign(path: &Path, number: u32, node: &Formula, place: u32) -> Option<bool>
    requires { IsSome (spec.part_at node.now place) }
    ensures { result ≡ spec.part_sign path.now.facts number node.now place }
{
    match node {
        Formula::Not(_) => first_sign(has_sign(path, number, false), has_sign(path, number, true)),
        Formula::And(parts) => {
            let forced = has_sign(path, number, false)
                && others_have(path, parts.as_slice(), place as usize, true);
            forced.then_some(false)
        }
        Formula::Or(parts) => {
            let forced = has_sign(path, number, true)
                && others_have(path, parts.as_slice(), place as usize, false);
            forced.then_some(true)
        }
        Formula::Iff(f, g) => {
            let other = if place == 1 { *g } else { *f };
            first_sign(agree(path, number, other), differ(path, number, other))
        }
        _ => None,
    }
}

/// The conclusion of `unit`.
pub fn unit_fact(problem: &Problem, path: &Path, number: u32, place: u32) -> Option<Fact>
    ensures { result ≡ spec.unit_of problem.now path.now.facts number place }
{
    let node = problem.find_formula(number)?;
    if place == 0 {
        let sign = own_sign(path, node)?;
        return Some(Fact::Sign(number, sign));
    }
    let part = part_at(node, place)?;
    let sign = part_sign(path, number, node, place)?;
    Some(Fact::Sign(part, sign))
}

/// The sign of all parts of an `and` with plus and an `or` with minus.
fn parts_sign(path: &Path, number: u32, node: &Formula) -> Option<bool>
    ensures { result ≡ spec.parts_sign path.now.facts number node.now }
{
    match node {
        Formula::And(_) => has_sign(path, number, true).then_some(true),
        Formula::Or(_) => has_sign(path, number, false).then_some(false),
        _ => None,
    }
}

/// The conclusion of `all`.
pub fn all_fact(problem: &Problem, path: &Path, number: u32, place: u32) -> Option<Fact>
    ensures { result ≡ spec.all_of problem.now path.now.facts number place }
{
    let node = problem.find_formula(number)?;
    let sign = parts_sign(path, number, node)?;
    let part = part_at(node, place)?;
    Some(Fact::Sign(part, sign))
}

/// The fact that an atomic formula states.
pub fn atom_with(node: &Formula, sign: bool) -> Option<Fact>
    ensures { result ≡ spec.atom_with node.now sign }
{
    match node {
        Formula::Member(element, set) => Some(Fact::Member(*element, *set, sign)),
        Formula::Eq(e, f) => Some(equal_fact(*e, *f, sign)),
        Formula::EqSet(s, t) => Some(same_set_fact(*s, *t, sign)),
        _ => None,
    }
}

/// The conclusion of `atom`.
pub fn atom_fact(problem: &Problem, path: &Path, number: u32) -> Option<Fact>
    ensures { result ≡ spec.atom_of problem.now path.now.facts number }
{
    let node = problem.find_formula(number)?;
    let sign = sign_of(path, number)?;
    atom_with(node, sign)
}
