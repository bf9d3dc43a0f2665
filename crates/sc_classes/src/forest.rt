//! A forest of classes: union by rank.

ghost use Rattle.std.specs.Prelude.{◌≡◌, ◌<◌, ◌≤◌, ◌+◌, ◌^◌, ◌++◌, [], ◌∷◌, ℕ, length, slice_index, slice_set, IfOk};
ghost use Rattle.std.specs.Vec.{vec_len, vec_capacity};
ghost use Rattle.sc_classes.specs.Classes.{lesser, least_of};
ghost use Rattle.sc_classes.specs.Classes as classes;
ghost use Rattle.sc_classes.specs.Forests as spec;
ghost use Rattle.sc_classes.specs.Forests.{StandsFor};

use sc_terms::Memory;
use std::alloc::Global;

/// The merged pairs, and for each number its parent, its rank and, where it is its own parent, the least number of its class.
#[derive(Drop)]
pub(crate) struct Forest {
    pub pairs: Vec<(u32, u32)>,
    pub parents: Vec<u32>,
    pub ranks: Vec<usize>,
    pub leasts: Vec<u32>,
}

/// The numbers up to the last.
fn numbers(alloc: Global, last: u32) -> Result<Vec<u32>, Memory>
    ensures count { IfOk result (λ numbers. length numbers.items ≡ last + 1) }
    ensures own { IfOk result (λ numbers. (n : ℕ) → n < length numbers.items → slice_index numbers.items n ≡ n) }
{
    let mut numbers = Vec::new(alloc);
    for number in 0..=last {
        numbers.push(number)?;
    }
    Ok(numbers)
}

/// A zero for each number up to the last.
fn zeros(alloc: Global, last: u32) -> Result<Vec<usize>, Memory>
    ensures count { IfOk result (λ zeros. length zeros.items ≡ last + 1) }
    ensures own { IfOk result (λ zeros. (n : ℕ) → n < length zeros.items → slice_index zeros.items n ≡ 0) }
{
    let mut zeros = Vec::new(alloc);
    for _ in 0..=last {
        zeros.push(0)?;
    }
    Ok(zeros)
}

/// The numbers up to the last, each in a class of its own.
pub(crate) fn singles(alloc: Global, last: u32) -> Result<Forest, Memory>
    ensures pairs { IfOk result (λ forest. forest.pairs.items ≡ []) }
    ensures stands { IfOk result (λ forest. StandsFor last [] forest.parents.items forest.ranks.items forest.leasts.items) }
{
    Ok(Forest {
        pairs: Vec::new(alloc),
        parents: numbers(alloc, last)?,
        ranks: zeros(alloc, last)?,
        leasts: numbers(alloc, last)?,
    })
}

/// The lesser of two numbers.
fn lesser(m: u32, n: u32) -> u32
    ensures { result ≡ classes.lesser m n }
{
    if m < n { m } else { n }
}

/// The rank of a root once the one of the first rank hangs below it.
fn raised(lower: usize, upper: usize) -> usize
    requires { lower + 1 < 2 ^ 64 }
    ensures { result ≡ spec.raised lower upper }
{
    if lower < upper { upper } else { lower + 1 }
}

impl Forest {
    /// The root above a number: up the parents, whose ranks rise.
    pub(crate) fn root(&self, last: u32, number: u32) -> u32
        requires stands { StandsFor last self.now.pairs.items self.now.parents.items self.now.ranks.items self.now.leasts.items }
        requires within { number ≤ last }
        ensures within { result ≤ last }
        ensures root { slice_index self.now.parents.items result ≡ result }
        ensures same { least_of self.now.pairs.items result ≡ least_of self.now.pairs.items number }
    {
        let mut at = number;
        while self.parents[at as usize] != at {
            at = self.parents[at as usize];
        }
        at
    }

    /// The least number of the class of a number.
    pub(crate) fn label(&self, last: u32, number: u32) -> u32
        requires stands { StandsFor last self.now.pairs.items self.now.parents.items self.now.ranks.items self.now.leasts.items }
        requires within { number ≤ last }
        ensures { result ≡ least_of self.now.pairs.items number }
    {
        self.leasts[self.root(last, number) as usize]
    }

    /// Hangs a root below another one, whose rank is then greater.
    fn hang(&mut self, lower: u32, upper: u32)
        requires lower { lower < length self.old.parents.items }
        requires upper { upper < length self.old.parents.items }
        requires ranks { length self.old.ranks.items ≡ length self.old.parents.items }
        requires leasts { length self.old.leasts.items ≡ length self.old.parents.items }
        requires low { slice_index self.old.ranks.items lower < length self.old.pairs.items }
        ensures pairs { self.new.pairs ≡ self.old.pairs }
        ensures parents { self.new.parents.items ≡ slice_set self.old.parents.items lower upper }
        ensures ranks { self.new.ranks.items ≡ slice_set self.old.ranks.items upper (spec.raised (slice_index self.old.ranks.items lower) (slice_index self.old.ranks.items upper)) }
        ensures leasts { self.new.leasts.items ≡ slice_set self.old.leasts.items upper (lesser (slice_index self.old.leasts.items lower) (slice_index self.old.leasts.items upper)) }
    {
        let (below, above) = (lower as usize, upper as usize);
        self.ranks[above] = raised(self.ranks[below], self.ranks[above]);
        self.leasts[above] = lesser(self.leasts[below], self.leasts[above]);
        self.parents[below] = upper;
    }

    /// Merges a pair, for which there is room.
    pub(crate) fn unite(&mut self, last: u32, first: u32, second: u32)
        requires stands { StandsFor last self.old.pairs.items self.old.parents.items self.old.ranks.items self.old.leasts.items }
        requires first { first ≤ last }
        requires second { second ≤ last }
        requires room { vec_len self.old.pairs < vec_capacity self.old.pairs }
        ensures pairs { self.new.pairs.items ≡ self.old.pairs.items ++ (first, second) ∷ [] }
        ensures stands { StandsFor last self.new.pairs.items self.new.parents.items self.new.ranks.items self.new.leasts.items }
    {
        let a = self.root(last, first);
        let b = self.root(last, second);
        self.pairs.push_reserved((first, second));
        if a == b {
            return;
        }
        if self.ranks[a as usize] < self.ranks[b as usize] {
            self.hang(a, b);
        } else {
            self.hang(b, a);
        }
    }
}
