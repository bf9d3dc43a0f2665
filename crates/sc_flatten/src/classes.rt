//! Classes of linked numbers, by a forest in which each number hangs below a smaller one of its class, or is the least of it.

ghost use Rattle.std.specs.Prelude.{◌≡◌, ◌<◌, ◌≤◌, ◌+◌, ℕ, length, slice_index, IfOk};
ghost use Rattle.std.specs.List.{AllByRecursion};
ghost use Rattle.sc_flatten.specs.Classes.{least_of};
ghost use Rattle.sc_flatten.specs.Forests.{IsLow, IsForest, Finds, Joins, LinkIn};

use sc_terms::Memory;
use std::alloc::Global;

/// The least number of a number's class. On the way each number is hung below its parent's parent.
pub(crate) fn find(parents: &mut [u32], number: u32) -> u32
    requires low { IsLow parents.old }
    requires range { number < length parents.old }
    ensures low { IsLow parents.new }
    ensures within { result ≤ number }
    ensures finds { Finds parents.old parents.new number result }
{
    let mut at = number as usize;
    while parents[at] as usize != at {
        let above = parents[parents[at] as usize];
        parents[at] = above;
        at = above as usize;
    }
    at as u32
}

/// Makes the classes of two numbers one.
fn join(parents: &mut [u32], first: u32, second: u32)
    requires low { IsLow parents.old }
    requires first { first < length parents.old }
    requires second { second < length parents.old }
    ensures low { IsLow parents.new }
    ensures joins { Joins parents.old parents.new first second }
{
    let a = find(parents, first);
    let b = find(parents, second);
    if a < b {
        parents[b as usize] = a;
    } else {
        parents[a as usize] = b;
    }
}

/// The numbers from 0 up to the last, each of them its own parent.
fn singles(alloc: Global, last: u32) -> Result<Vec<u32>, Memory>
    ensures count { IfOk result (λ parents. length parents.items ≡ last + 1) }
    ensures own { IfOk result (λ parents. (n : ℕ) → n < length parents.items → slice_index parents.items n ≡ n) }
{
    let mut parents = Vec::new(alloc);
    for number in 0..=last {
        parents.push(number)?;
    }
    Ok(parents)
}

/// Makes the classes of the two of each link one.
fn join_all(parents: &mut [u32], last: u32, links: &[(u32, u32)])
    requires count { length parents.old ≡ last + 1 }
    requires own { (n : ℕ) → n < length parents.old → slice_index parents.old n ≡ n }
    requires links { AllByRecursion (LinkIn last) links.now }
    ensures low { IsLow parents.new }
    ensures forest { IsForest (least_of links.now) parents.new }
{
    for link in links {
        join(parents, link.0, link.1);
    }
}

/// The forest of the classes of the smallest equivalence that holds the links between numbers up to the last.
pub(crate) fn forest(alloc: Global, last: u32, links: &[(u32, u32)]) -> Result<Vec<u32>, Memory>
    requires { AllByRecursion (LinkIn last) links.now }
    ensures count { IfOk result (λ parents. length parents.items ≡ last + 1) }
    ensures low { IfOk result (λ parents. IsLow parents.items) }
    ensures forest { IfOk result (λ parents. IsForest (least_of links.now) parents.items) }
{
    let mut parents = singles(alloc, last)?;
    join_all(&mut parents, last, links);
    Ok(parents)
}
