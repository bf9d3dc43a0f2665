//! The steps on members and equalities.

ghost use Rattle.std.specs.Prelude.{◌≡◌};
ghost use Rattle.sc_terms.specs.Lookup.{set_at};
ghost use Rattle.sc_rules.specs.Members as spec;

use crate::pairs::{are_equal, are_same_set, equal_fact, equality_of, first_sign, same_set_fact};
use sc_facts::{Fact, Path};
use sc_sorts::may_hold;
use sc_terms::{Problem, SetTerm};

fn is_within(path: &Path, element: u32, set: u32, sign: bool) -> bool
    ensures { result ≡ spec.within path.now.facts element set sign }
{
    path.has(&Fact::Member(element, set, sign))
}

/// The sign that a path gives to the membership of an element in a set term: true where it has the element as a member, else false where it has it outside; nothing exactly where it says neither.
pub fn membership_of(path: &Path, element: u32, set: u32) -> Option<bool>
    ensures { result ≡ spec.within_of path.now.facts element set }
{
    first_sign(
        is_within(path, element, set, true),
        is_within(path, element, set, false),
    )
}

/// The sign that the membership of an element in a union and its arguments forces at a place.
fn union_sign(path: &Path, e: u32, n: u32, a: u32, b: u32, place: u32) -> Option<bool>
    ensures { result ≡ spec.union_sign path.now.facts e n a b place }
{
    match place {
        0 => first_sign(
            is_within(path, e, a, true) || is_within(path, e, b, true),
            is_within(path, e, a, false) && is_within(path, e, b, false),
        ),
        1 => first_sign(
            is_within(path, e, n, true) && is_within(path, e, b, false),
            is_within(path, e, n, false),
        ),
        2 => first_sign(
            is_within(path, e, n, true) && is_within(path, e, a, false),
            is_within(path, e, n, false),
        ),
        _ => None,
    }
}

/// The same for an intersection.
fn inter_sign(path: &Path, e: u32, n: u32, a: u32, b: u32, place: u32) -> Option<bool>
    ensures { result ≡ spec.inter_sign path.now.facts e n a b place }
{
    match place {
        0 => first_sign(
            is_within(path, e, a, true) && is_within(path, e, b, true),
            is_within(path, e, a, false) || is_within(path, e, b, false),
        ),
        1 => first_sign(
            is_within(path, e, n, true),
            is_within(path, e, n, false) && is_within(path, e, b, true),
        ),
        2 => first_sign(
            is_within(path, e, n, true),
            is_within(path, e, n, false) && is_within(path, e, a, true),
        ),
        _ => None,
    }
}

/// The same for a difference.
fn minus_sign(path: &Path, e: u32, n: u32, a: u32, b: u32, place: u32) -> Option<bool>
    ensures { result ≡ spec.minus_sign path.now.facts e n a b place }
{
    match place {
        0 => first_sign(
            is_within(path, e, a, true) && is_within(path, e, b, false),
            is_within(path, e, a, false) || is_within(path, e, b, true),
        ),
        1 => first_sign(
            is_within(path, e, n, true),
            is_within(path, e, n, false) && is_within(path, e, b, false),
        ),
        2 => first_sign(
            is_within(path, e, n, false) && is_within(path, e, a, true),
            is_within(path, e, n, true),
        ),
        _ => None,
    }
}

/// The sign that is forced on an element at a place of set term n, which is this node.
fn op_sign(
    problem: &Problem,
    path: &Path,
    e: u32,
    n: u32,
    node: &SetTerm,
    place: u32,
) -> Option<bool>
    ensures { result ≡ spec.op_sign problem.now path.now.facts e n node.now place }
{
    match node {
        SetTerm::Empty(_) if place == 0 && may_hold(problem, n, e) => Some(false),
        SetTerm::Union(a, b) => union_sign(path, e, n, *a, *b, place),
        SetTerm::Inter(a, b) => inter_sign(path, e, n, *a, *b, place),
        SetTerm::Minus(a, b) => minus_sign(path, e, n, *a, *b, place),
        _ => None,
    }
}

/// Set term n itself, which is this node, for place 0, else one of its arguments.
fn argument(n: u32, node: &SetTerm, place: u32) -> Option<u32>
    ensures { result ≡ spec.argument n node.now place }
{
    match (place, node) {
        (0, _) => Some(n),
        (1, SetTerm::Union(a, _) | SetTerm::Inter(a, _) | SetTerm::Minus(a, _)) => Some(*a),
        (2, SetTerm::Union(_, b) | SetTerm::Inter(_, b) | SetTerm::Minus(_, b)) => Some(*b),
        _ => None,
    }
}

/// The conclusion of `op`.
pub fn op_fact(problem: &Problem, path: &Path, e: u32, n: u32, place: u32) -> Option<Fact>
    ensures { result ≡ spec.op_of problem.now path.now.facts e n place }
{
    let node = problem.find_set(n)?;
    let set = argument(n, node, place)?;
    let sign = op_sign(problem, path, e, n, node, place)?;
    Some(Fact::Member(e, set, sign))
}

/// The element of a set of one.
pub fn single_of(problem: &Problem, set: u32) -> Option<u32>
    ensures { result ≡ spec.single_of (set_at problem.now set) }
{
    match problem.find_set(set)? {
        SetTerm::Single(element) => Some(*element),
        _ => None,
    }
}

/// The conclusion of `single`.
pub fn into_single(problem: &Problem, path: &Path, e: u32, set: u32) -> Option<Fact>
    ensures { result ≡ spec.into_single problem.now path.now.facts e set }
{
    let one = single_of(problem, set)?;
    let sign = equality_of(path, e, one)?;
    Some(Fact::Member(e, set, sign))
}

/// The conclusion of `unsingle`.
pub fn from_single(problem: &Problem, path: &Path, e: u32, set: u32) -> Option<Fact>
    ensures { result ≡ spec.from_single problem.now path.now.facts e set }
{
    let one = single_of(problem, set)?;
    let sign = membership_of(path, e, set)?;
    Some(equal_fact(e, one, sign))
}

/// The conclusion of `carry`.
pub fn carry_fact(path: &Path, e: u32, f: u32, set: u32) -> Option<Fact>
    ensures { result ≡ spec.carry_of path.now.facts e f set }
{
    if !are_equal(path, e, f, true) {
        return None;
    }
    let sign = membership_of(path, e, set)?;
    Some(Fact::Member(f, set, sign))
}

/// The conclusion of `apart`.
pub fn apart_fact(path: &Path, e: u32, f: u32, set: u32) -> Option<Fact>
    ensures { result ≡ spec.apart_of path.now.facts e f set }
{
    let apart = (is_within(path, e, set, true) && is_within(path, f, set, false))
        || (is_within(path, e, set, false) && is_within(path, f, set, true));
    apart.then_some(equal_fact(e, f, false))
}

/// The conclusion of `move`.
pub fn move_fact(path: &Path, e: u32, s: u32, t: u32) -> Option<Fact>
    ensures { result ≡ spec.move_of path.now.facts e s t }
{
    if !are_same_set(path, s, t, true) {
        return None;
    }
    let sign = membership_of(path, e, s)?;
    Some(Fact::Member(e, t, sign))
}

/// The conclusion of `setapart`.
pub fn set_apart_fact(path: &Path, e: u32, s: u32, t: u32) -> Option<Fact>
    ensures { result ≡ spec.set_apart_of path.now.facts e s t }
{
    let apart = (is_within(path, e, s, true) && is_within(path, e, t, false))
        || (is_within(path, e, s, false) && is_within(path, e, t, true));
    apart.then_some(same_set_fact(s, t, false))
}

/// The conclusion of `eqrefl`.
pub fn reflexive_fact(problem: &Problem, e: u32) -> Option<Fact>
    ensures { result ≡ spec.reflexive_of problem.now e }
{
    problem.find_element(e)?;
    Some(Fact::Eq(e, e, true))
}

/// The conclusion of `seqrefl`.
pub fn set_reflexive_fact(problem: &Problem, s: u32) -> Option<Fact>
    ensures { result ≡ spec.set_reflexive_of problem.now s }
{
    problem.find_set(s)?;
    Some(Fact::EqSet(s, s, true))
}

/// The conclusion of `eqstep`.
pub fn equal_step_fact(path: &Path, e: u32, f: u32, g: u32) -> Option<Fact>
    ensures { result ≡ spec.equal_step_of path.now.facts e f g }
{
    let left = are_equal(path, e, f, true);
    let right = are_equal(path, f, g, true);
    if left && right {
        return Some(equal_fact(e, g, true));
    }
    let apart = (left && are_equal(path, f, g, false)) || (are_equal(path, e, f, false) && right);
    apart.then_some(equal_fact(e, g, false))
}

/// The conclusion of `seqstep`.
pub fn set_step_fact(path: &Path, s: u32, t: u32, u: u32) -> Option<Fact>
    ensures { result ≡ spec.set_step_of path.now.facts s t u }
{
    let left = are_same_set(path, s, t, true);
    let right = are_same_set(path, t, u, true);
    if left && right {
        return Some(same_set_fact(s, u, true));
    }
    let apart = (left && are_same_set(path, t, u, false))
        || (are_same_set(path, s, t, false) && right);
    apart.then_some(same_set_fact(s, u, false))
}

/// The differing element of two sets that the path has as different.
pub fn differing_element(problem: &Problem, path: &Path, s: u32, t: u32) -> Option<u32>
    ensures { result ≡ spec.differing problem.now path.now.facts s t }
{
    if !are_same_set(path, s, t, false) {
        return None;
    }
    problem.diff_of(s, t)
}
