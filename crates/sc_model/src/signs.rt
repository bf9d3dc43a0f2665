//! What is due at the signs of formulas.

ghost use Rattle.std.specs.Prelude.{◌≡◌, ◌≢◌, ℕ, None, Some, length, MatchOption};
ghost use Rattle.sc_terms.specs.Conditions.{IsIn};
ghost use Rattle.sc_rules.specs.Boolean as rules;
ghost use Rattle.sc_rules.specs.Boolean.{own_sign};
ghost use Rattle.sc_sorts.specs.Posed.{IsIntless};
ghost use Rattle.sc_tree.specs.Events.{HasNoClash};
ghost use Rattle.sc_model.specs.Settled.{BearsOut, IsBorneOut};
ghost use Rattle.sc_model.specs.Deciding as spec;
ghost use Rattle.sc_model.specs.Deciding.{parts_of, HasSign, IsUnsignedOf, IsDue};

use crate::steps::Due;
use sc_facts::{Fact, FactName, Path};
use sc_rules::{PlainStep, equal_fact, own_sign, same_set_fact, sign_of};
use sc_terms::{Formula, Problem};

/// Whether the path gives a formula no sign.
fn is_unsigned(path: &Path, formula: u32) -> bool
    ensures { result ≡ spec.is_unsigned path.now.facts formula }
{
    sign_of(path, formula).is_none()
}

/// One of the formulas that has no sign, or nothing where each has one.
fn unsigned_of(path: &Path, formulas: &[u32]) -> Option<u32>
    ensures { IsUnsignedOf path.now.facts formulas.now result }
{
    for formula in formulas {
        if is_unsigned(path, *formula) {
            return Some(*formula);
        }
    }
    None
}

/// A part of a formula that has no sign, or nothing where each has one.
fn unsigned_part(path: &Path, node: &Formula) -> Option<u32>
    ensures { IsUnsignedOf path.now.facts (parts_of node.now) result }
{
    match node {
        Formula::Not(f) => unsigned_of(path, &[*f]),
        Formula::And(parts) | Formula::Or(parts) => unsigned_of(path, parts.as_slice()),
        Formula::Iff(f, g) => unsigned_of(path, &[*f, *g]),
        _ => None,
    }
}

/// The fact that a formula with this sign states, where it is atomic.
fn stated(node: &Formula, sign: bool) -> Option<Fact>
    ensures { result ≡ rules.atom_with node.now sign }
{
    match node {
        Formula::Member(e, s) => Some(Fact::Member(*e, *s, sign)),
        Formula::Eq(e, f) => Some(equal_fact(*e, *f, sign)),
        Formula::EqSet(s, t) => Some(same_set_fact(*s, *t, sign)),
        _ => None,
    }
}

/// What is due at a formula that has this sign and is not atomic, where its parts don't force that sign on it.
fn due_of_parts(
    problem: &Problem,
    path: &Path,
    number: u32,
    node: &Formula,
    sign: bool,
) -> Option<Due>
    requires signed { HasSign problem.now path.now.facts number node.now sign }
    requires other { rules.atom_with node.now sign ≡ None }
    requires unforced { own_sign path.now.facts node.now ≢ Some sign }
    ensures { MatchOption result (BearsOut path.now.facts node.now sign) (IsDue problem.now path.now.facts) }
{
    if own_sign(path, node).is_some() {
        return Some(Due::Take(PlainStep::Unit(number, 0)));
    }
    match unsigned_part(path, node) {
        Some(part) => Some(Due::Split(PlainStep::Cut(FactName::Sign(part)))),
        None => None,
    }
}

/// What is due at a formula that has this sign, or nothing exactly where the path bears it out.
fn due_of(problem: &Problem, path: &Path, number: u32, node: &Formula, sign: bool) -> Option<Due>
    requires { HasSign problem.now path.now.facts number node.now sign }
    ensures { MatchOption result (BearsOut path.now.facts node.now sign) (IsDue problem.now path.now.facts) }
{
    if let Some(fact) = stated(node, sign) {
        if path.has(&fact) {
            return None;
        }
        return Some(Due::Take(PlainStep::Atom(number)));
    }
    if own_sign(path, node) == Some(sign) {
        return None;
    }
    due_of_parts(problem, path, number, node, sign)
}

/// What is due at the formula with this number, or nothing exactly where the path bears out its signs.
fn due_at(problem: &Problem, path: &Path, number: u32) -> Option<Due>
    requires number { IsIn (length problem.now.formulas) number }
    requires intless { IsIntless problem.now }
    requires consistent { HasNoClash path.now.facts }
    ensures { MatchOption result (IsBorneOut problem.now path.now.facts number) (IsDue problem.now path.now.facts) }
{
    let _roots = problem.roots();
    match sign_of(path, number) {
        Some(sign) => due_of(problem, path, number, problem.formula(number), sign),
        None => None,
    }
}

/// What is due at the signs of formulas, or nothing exactly where the path bears out each. Each formula is looked at once.
pub(crate) fn due_sign(problem: &Problem, path: &Path) -> Option<Due>
    requires intless { IsIntless problem.now }
    requires consistent { HasNoClash path.now.facts }
    ensures { MatchOption result ((n : ℕ) → IsIn (length problem.now.formulas) n → IsBorneOut problem.now path.now.facts n) (IsDue problem.now path.now.facts) }
{
    for place in 0..problem.counts().formulas {
        let due = due_at(problem, path, place + 1);
        if due.is_some() {
            return due;
        }
    }
    None
}
