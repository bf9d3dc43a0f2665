//! Facts on pairs of elements and of set terms, whose numbers may be given in any order.

ghost use Rattle.std.specs.Prelude.{◌≡◌};
ghost use Rattle.sc_rules.specs.Pairs as spec;

use sc_facts::{Fact, Path};

/// A plus where the first holds, else a minus where the second does.
pub fn first_sign(plus: bool, minus: bool) -> Option<bool>
    ensures { result ≡ spec.first_sign plus minus }
{
    if plus {
        Some(true)
    } else if minus {
        Some(false)
    } else {
        None
    }
}

/// The two numbers, the lower one first.
pub fn ordered(m: u32, n: u32) -> (u32, u32)
    ensures { result ≡ spec.ordered m n }
{
    if n < m { (n, m) } else { (m, n) }
}

/// That two elements are equal, for a true sign, or that they differ. Their numbers may come in any order.
pub fn equal_fact(e: u32, f: u32, sign: bool) -> Fact
    ensures { result ≡ spec.equal_fact e f sign }
{
    let (low, high) = ordered(e, f);
    Fact::Eq(low, high, sign)
}

/// Whether the path has two elements as equal, for a true sign, or as different.
pub fn are_equal(path: &Path, e: u32, f: u32, sign: bool) -> bool
    ensures { result ≡ spec.equal path.now.facts e f sign }
{
    path.has(&equal_fact(e, f, sign))
}

/// The sign that a path gives to the equality of two elements, whose numbers may come in any order: true where it has them as equal, else false where it has them as different; nothing exactly where it says neither.
pub fn equality_of(path: &Path, e: u32, f: u32) -> Option<bool>
    ensures { result ≡ spec.equal_of path.now.facts e f }
{
    first_sign(are_equal(path, e, f, true), are_equal(path, e, f, false))
}

/// That two set terms are equal, for a true sign, or that they differ. Their numbers may come in any order.
pub fn same_set_fact(s: u32, t: u32, sign: bool) -> Fact
    ensures { result ≡ spec.same_set_fact s t sign }
{
    let (low, high) = ordered(s, t);
    Fact::EqSet(low, high, sign)
}

/// Whether the path has two set terms as equal, for a true sign, or as different.
pub fn are_same_set(path: &Path, s: u32, t: u32, sign: bool) -> bool
    ensures { result ≡ spec.same_set path.now.facts s t sign }
{
    path.has(&same_set_fact(s, t, sign))
}

/// The sign that a path gives to the equality of two set terms, whose numbers may come in any order: true where it has them as equal, else false where it has them as different; nothing exactly where it says neither.
pub fn set_equality_of(path: &Path, s: u32, t: u32) -> Option<bool>
    ensures { result ≡ spec.same_set_of path.now.facts s t }
{
    first_sign(
        are_same_set(path, s, t, true),
        are_same_set(path, s, t, false),
    )
}
