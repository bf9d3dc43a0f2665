ghost use Rattle.std.specs.Prelude.{◌≡◌, ◌+◌, ◌^◌, ◌<◌, ◌≤◌, ◌≤ℤ◌, ◌↔◌, [], ◌++◌, length, take, drop, IfOk, IsTrue, filter, slice_get};
ghost use Rattle.std.specs.Result.{OkIff};
ghost use Rattle.sc_base.specs.Integers.{has_element, without, in_order, IsAscending, fresh_values, fresh_up, fresh_down, upward};
ghost use Rattle.sc_base.specs.Spans.{width, members, AreApart};

use crate::error::{FreshError, Memory, Wide};
use crate::{places, spans};
use sc_base::Span;
use std::alloc::Global;
use std::marker::Model;

/// A set of integers of 128 bits. Contracts see it as the ascending list of its values, each of which stands there once.
///
/// It is kept as ascending runs, each with the place of its last value, so a call takes time by the number of runs and not by that of the values. `has` and `nth` bisect the runs.
#[derive(Debug, Drop)]
pub struct Runs {
    spans: Vec<Span>,
    /// The place of each run's last value; the set's least value is at 0. A place fits where a count of values may not: 2^128 itself has no `u128`.
    lasts: Vec<u128>,
}

impl Model for Runs {
    ghost use Rattle.std.specs.Prelude.{List, ℤ};
    ghost use Rattle.sc_base.specs.Spans.{members};
    ghost use Rattle.sc_runs.specs.Places.{AreRuns};

    ghost Value = { List ℤ };

    ghost view = { λ r. members r.spans.items };

    ghost invariant = { λ r. AreRuns r.spans.items r.lasts.items };
}

impl Runs {
    /// The set without a value. The set keeps `alloc`, and each set that is made from it too.
    pub fn empty(alloc: Global) -> Runs
        ensures { result ≡ [] }
    {
        Runs {
            spans: Vec::new(alloc),
            lasts: Vec::new(alloc),
        }
    }

    /// The set whose runs these are. `Err` where there was no memory.
    fn with_runs(spans: Vec<Span>) -> Result<Runs, Memory>
        requires { AreApart spans.items }
        ensures { IfOk result (λ r. r ≡ members spans.items) }
    {
        let lasts = places::last_places(*spans.allocator(), spans.as_slice())?;
        Ok(Runs { spans, lasts })
    }

    /// The numbers from `low` to `high`, both among them. `Err` where there was no memory.
    pub fn span(alloc: Global, low: i128, high: i128) -> Result<Runs, Memory>
        requires { low ≤ℤ high }
        ensures { IfOk result (λ r. r ≡ upward low (width (record { low = low; high = high }) + 1)) }
    {
        let spans = spans::single(alloc, Span { low, high })?;
        Runs::with_runs(spans)
    }

    /// The set of the values of the spans, of which each ends at least two below the next one's start. `Err` where there was no memory.
    pub fn from_spans(alloc: Global, spans: &[Span]) -> Result<Runs, Memory>
        requires { AreApart spans.now }
        ensures { IfOk result (λ r. r ≡ members spans.now) }
    {
        let spans = spans::copied(alloc, spans)?;
        Runs::with_runs(spans)
    }

    /// The set's runs: ascending spans, of which each ends at least two below the next one's start. There is one such list of spans for each set.
    pub fn spans(&self) -> &[Span]
        ensures values { members result.now ≡ self.now }
        ensures apart { AreApart result.now }
        ensures ascending { IsAscending self.now }
    {
        self.spans.as_slice()
    }

    /// The values that are in both sets. `Err` where there was no memory.
    pub fn inter(&self, other: &Runs) -> Result<Runs, Memory>
        ensures { IfOk result (λ r. r ≡ filter (has_element other.now) self.now) }
    {
        let alloc = *self.spans.allocator();
        let spans = spans::common(alloc, self.spans.as_slice(), other.spans.as_slice())?;
        Runs::with_runs(spans)
    }

    /// The values of this set that are not in the other. `Err` where there was no memory.
    pub fn minus(&self, other: &Runs) -> Result<Runs, Memory>
        ensures { IfOk result (λ r. r ≡ without self.now other.now) }
    {
        let alloc = *self.spans.allocator();
        let outside = spans::gaps(alloc, other.spans.as_slice())?;
        let spans = spans::common(alloc, self.spans.as_slice(), outside.as_slice())?;
        Runs::with_runs(spans)
    }

    /// The values that are in this set or in the other. `Err` where there was no memory.
    pub fn union(&self, other: &Runs) -> Result<Runs, Memory>
        ensures { IfOk result (λ r. r ≡ in_order (self.now ++ without other.now self.now)) }
    {
        let alloc = *self.spans.allocator();
        let spans = spans::joined(alloc, self.spans.as_slice(), other.spans.as_slice())?;
        Runs::with_runs(spans)
    }

    /// Whether `value` is in the set.
    pub fn has(&self, value: i128) -> bool
        ensures { result ≡ has_element self.now value }
    {
        spans::covers(self.spans.as_slice(), value)
    }

    /// Whether the two sets have the same values.
    pub fn same(&self, other: &Runs) -> bool
        ensures { IsTrue result ↔ (self.now ≡ other.now) }
    {
        self.spans.as_slice() == other.spans.as_slice()
    }

    /// The value below which `k` others of the set lie: the least for 0. `None` exactly where the set has no more than `k` values.
    pub fn nth(&self, k: u128) -> Option<i128>
        ensures { result ≡ slice_get self.now k }
    {
        places::nth(self.spans.as_slice(), self.lasts.as_slice(), k)
    }

    /// How many values the set has. `Wide` exactly where they are all the numbers of 128 bits: 2^128 itself has no `u128`.
    pub fn card(&self) -> Result<u128, Wide>
        ensures count { OkIff result (length self.now < 2 ^ 128) (length self.now) }
        ensures bound { length self.now ≤ 2 ^ 128 }
    {
        spans::count(self.spans.as_slice())
    }

    /// The first `count` values.
    fn first(&self, count: u128) -> Result<Runs, Memory>
        ensures { IfOk result (λ r. r ≡ take count self.now) }
    {
        let alloc = *self.spans.allocator();
        let spans = spans::first_values(alloc, self.spans.as_slice(), count)?;
        Runs::with_runs(spans)
    }

    /// All but the first `count` values.
    fn after(&self, count: u128) -> Result<Runs, Memory>
        ensures { IfOk result (λ r. r ≡ drop count self.now) }
    {
        let alloc = *self.spans.allocator();
        let spans = spans::later_values(alloc, self.spans.as_slice(), count)?;
        Runs::with_runs(spans)
    }

    /// The numbers from 0 on that are not in the set.
    fn fresh_up(&self) -> Result<Runs, Memory>
        ensures value { IfOk result (λ r. r ≡ fresh_up self.now) }
    {
        let alloc = *self.spans.allocator();
        Runs::span(alloc, 0, i128::MAX)?.minus(self)
    }

    /// The numbers below 0 that are not in the set.
    fn fresh_down(&self) -> Result<Runs, Memory>
        ensures value { IfOk result (λ r. r ≡ fresh_down self.now) }
    {
        let alloc = *self.spans.allocator();
        Runs::span(alloc, i128::MIN, -1)?.minus(self)
    }

    /// Whether `count` numbers of 128 bits lie outside the set.
    fn leaves(&self, count: u128) -> bool
        ensures { IsTrue result ↔ (count ≤ length (fresh_values self.now)) }
    {
        match spans::count(self.spans.as_slice()) {
            Ok(inside) => count == 0 || count - 1 <= u128::MAX - inside,
            Err(Wide) => count == 0,
        }
    }

    /// The first `count` numbers outside the set, in the order 0, 1, 2 up to 2^127 - 1, then -1, -2 down to -2^127.
    ///
    /// `Wide` exactly where fewer than `count` numbers of 128 bits lie outside the set, and `Memory` where there was no memory.
    pub fn take_fresh(&self, count: u128) -> Result<Runs, FreshError>
        ensures fresh { IfOk result (λ r. r ≡ in_order (take count (fresh_values self.now))) }
        ensures wide { (result ≡ Err FreshError.Wide) ↔ (length (fresh_values self.now) < count) }
    {
        if !self.leaves(count) {
            return Err(FreshError::Wide);
        }
        let values = self.fresh(count)?;
        Ok(values)
    }

    /// The first `count` numbers outside the set, of which there are as many.
    fn fresh(&self, count: u128) -> Result<Runs, Memory>
        requires { count ≤ length (fresh_values self.now) }
        ensures { IfOk result (λ r. r ≡ in_order (take count (fresh_values self.now))) }
    {
        let up = self.fresh_up()?;
        let Ok(up_count) = up.card() else {
            unreachable!()
        };
        if count <= up_count {
            return up.first(count);
        }
        let down = self.fresh_down()?;
        let Ok(down_count) = down.card() else {
            unreachable!()
        };
        let negative = down.after(down_count - (count - up_count))?;
        negative.union(&up)
    }
}
