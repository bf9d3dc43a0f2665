ghost use Rattle.std.specs.Prelude.{◌≡◌, ◌+◌, [], ◌∷◌, ◌++◌, ◌-◌, ◌^◌, ◌<◌, ◌≤◌, length, drop, IfOk, OnOk, pos, ◌+ℤ◌, FitsSigned, ℤ, ◌||◌, int_le};
ghost use Rattle.std.specs.Result.{OkIff};
ghost use Rattle.std.specs.Int.{w128};
ghost use Rattle.sc_base.specs.Integers.{lowest};
ghost use Rattle.sc_runs.specs.Joins.{is_past, lengthened, BeginsBy, Goes, IsJoined};
ghost use Rattle.sc_base.specs.Spans.{AreApart, IsSpan, gap, gaps, common, overlap, width, covers, members, first_values, later_values};

use crate::error::Wide;
use sc_base::Span;
use std::alloc::{AllocError, Global};

/// One less than the number of the span's values.
pub fn width(span: Span) -> u128
    ensures { result ≡ width span }
{
    span.high.abs_diff(span.low)
}

/// A list of one span.
pub fn single(alloc: Global, span: Span) -> Result<Vec<Span>, AllocError>
    ensures { IfOk result (λ v. v.items ≡ span ∷ []) }
{
    let mut spans = Vec::new(alloc);
    spans.push(span)?;
    Ok(spans)
}

/// A list of these spans.
pub fn copied(alloc: Global, spans: &[Span]) -> Result<Vec<Span>, AllocError>
    ensures { IfOk result (λ v. v.items ≡ spans.now) }
{
    let mut own = Vec::new(alloc);
    own.extend_from_slice(spans)?;
    Ok(own)
}

/// `low + steps`.
pub fn stepped(low: i128, steps: u128) -> i128
    requires { FitsSigned w128 (low +ℤ pos steps) }
    ensures { result ≡ low +ℤ pos steps }
{
    low.wrapping_add(steps.cast_signed())
}

/// Adds the numbers from `low` up to, and without, `end`.
fn push_gap(spans: &mut Vec<Span>, low: i128, end: i128) -> Result<(), AllocError>
    ensures { OnOk result (spans.new.items ≡ spans.old.items ++ gap low end) }
{
    if low < end {
        spans.push(Span { low, high: end - 1 })?;
    }
    Ok(())
}

/// The numbers that lie in none of the spans.
pub fn gaps(alloc: Global, spans: &[Span]) -> Result<Vec<Span>, AllocError>
    requires { AreApart spans.now }
    ensures { IfOk result (λ v. v.items ≡ gaps lowest spans.now) }
{
    let mut between = Vec::new(alloc);
    let mut next = i128::MIN;
    for span in spans {
        push_gap(&mut between, next, span.low)?;
        let Some(after) = span.high.checked_add(1) else {
            return Ok(between);
        };
        next = after;
    }
    between.push(Span {
        low: next,
        high: i128::MAX,
    })?;
    Ok(between)
}

/// Adds what two spans share.
fn push_overlap(spans: &mut Vec<Span>, a: Span, b: Span) -> Result<(), AllocError>
    ensures { OnOk result (spans.new.items ≡ spans.old.items ++ overlap a b) }
{
    let low = a.low.max(b.low);
    let high = a.high.min(b.high);
    if low <= high {
        spans.push(Span { low, high })?;
    }
    Ok(())
}

/// What both lists hold.
pub fn common(alloc: Global, left: &[Span], right: &[Span]) -> Result<Vec<Span>, AllocError>
    requires left_apart { AreApart left.now }
    requires right_apart { AreApart right.now }
    ensures { IfOk result (λ v. v.items ≡ common (length left.now + length right.now) left.now right.now) }
{
    let mut both = Vec::new(alloc);
    let mut i = 0;
    let mut j = 0;
    while i < left.len() && j < right.len() {
        let x = left[i];
        let y = right[j];
        push_overlap(&mut both, x, y)?;
        if x.high < y.high {
            i += 1;
        } else {
            j += 1;
        }
    }
    Ok(both)
}

/// Whether a number lies between the two spans, of which the first begins no higher.
fn is_past(last: Span, next: Span) -> bool
    ensures { result ≡ is_past last next }
{
    last.high < next.low && last.high + 1 < next.low
}

/// One span for two that overlap or touch, of which the first begins no higher.
fn lengthened(last: Span, next: Span) -> Span
    ensures { result ≡ lengthened last next }
{
    Span {
        low: last.low,
        high: last.high.max(next.high),
    }
}

/// Adds the values of a span that begins no lower than any of the list.
fn push_joined(spans: &mut Vec<Span>, next: Span) -> Result<(), AllocError>
    requires apart { AreApart spans.old.items }
    requires proper { IsSpan next }
    requires starts { BeginsBy next.low spans.old.items }
    ensures { OnOk result (IsJoined spans.old.items next spans.new.items) }
{
    let Some(last) = spans.pop() else {
        spans.push(next)?;
        return Ok(());
    };
    if is_past(last, next) {
        spans.push(last)?;
        spans.push(next)?;
    } else {
        spans.push(lengthened(last, next))?;
    }
    Ok(())
}

/// Adds the values of the spans from a place on, of which the first begins no lower than any of the list.
fn push_rest(spans: &mut Vec<Span>, more: &[Span], start: usize) -> Result<(), AllocError>
    requires apart { AreApart spans.old.items }
    requires more_apart { AreApart (drop start more.now) }
    requires goes { Goes spans.old.items (drop start more.now) }
    ensures apart { OnOk result (AreApart spans.new.items) }
    ensures values { OnOk result ((x : ℤ) → covers spans.new.items x ≡ (covers spans.old.items x || covers (drop start more.now) x)) }
{
    for i in start..more.len() {
        push_joined(spans, more[i])?;
    }
    Ok(())
}

/// Whether the first span begins no higher than the second.
fn begins_first(first: Span, second: Span) -> bool
    ensures { result ≡ int_le first.low second.low }
{
    first.low <= second.low
}

/// The values of both lists.
pub fn joined(alloc: Global, left: &[Span], right: &[Span]) -> Result<Vec<Span>, AllocError>
    requires left_apart { AreApart left.now }
    requires right_apart { AreApart right.now }
    ensures apart { IfOk result (λ v. AreApart v.items) }
    ensures values { IfOk result (λ v. (x : ℤ) → covers v.items x ≡ (covers left.now x || covers right.now x)) }
{
    let mut all = Vec::new(alloc);
    let mut i = 0;
    let mut j = 0;
    while i < left.len() && j < right.len() {
        let x = left[i];
        let y = right[j];
        if begins_first(x, y) {
            push_joined(&mut all, x)?;
            i += 1;
        } else {
            push_joined(&mut all, y)?;
            j += 1;
        }
    }
    if i < left.len() {
        push_rest(&mut all, left, i)?;
        return Ok(all);
    }
    push_rest(&mut all, right, j)?;
    Ok(all)
}

/// Whether a span holds the value.
pub fn covers(spans: &[Span], value: i128) -> bool
    requires { AreApart spans.now }
    ensures { result ≡ covers spans.now value }
{
    let at = spans.partition_point(|span| span.high < value);
    match spans.get(at) {
        Some(span) => span.low <= value,
        None => false,
    }
}

/// How many values the spans hold.
pub fn count(spans: &[Span]) -> Result<u128, Wide>
    ensures { OkIff result (length (members spans.now) < 2 ^ 128) (length (members spans.now)) }
{
    let mut sum: u128 = 0;
    for span in spans {
        let Some(part) = sum.checked_add(width(*span)) else {
            return Err(Wide);
        };
        let Some(whole) = part.checked_add(1) else {
            return Err(Wide);
        };
        sum = whole;
    }
    Ok(sum)
}

/// The first values of a span.
fn front(span: Span, count: u128) -> Span
    requires proper { IsSpan span }
    requires some { 0 < count }
    requires within { count ≤ width span }
    ensures { result ≡ record { low = span.low; high = span.low +ℤ pos (count - 1) } }
{
    Span {
        low: span.low,
        high: stepped(span.low, count - 1),
    }
}

/// All but the first values of a span.
fn back(span: Span, count: u128) -> Span
    requires proper { IsSpan span }
    requires within { count ≤ width span }
    ensures { result ≡ record { low = span.low +ℤ pos count; high = span.high } }
{
    Span {
        low: stepped(span.low, count),
        high: span.high,
    }
}

/// The first values, so many.
pub fn first_values(alloc: Global, spans: &[Span], count: u128) -> Result<Vec<Span>, AllocError>
    requires { AreApart spans.now }
    ensures { IfOk result (λ v. v.items ≡ first_values count spans.now) }
{
    let mut taken = Vec::new(alloc);
    let mut left = count;
    for span in spans {
        if left == 0 {
            return Ok(taken);
        }
        let width = width(*span);
        if left <= width {
            taken.push(front(*span, left))?;
            return Ok(taken);
        }
        taken.push(*span)?;
        left -= width + 1;
    }
    Ok(taken)
}

/// A span and those after it.
fn with_rest(alloc: Global, first: Span, others: &[Span]) -> Result<Vec<Span>, AllocError>
    ensures { IfOk result (λ v. v.items ≡ first ∷ others.now) }
{
    let mut spans = single(alloc, first)?;
    spans.extend_from_slice(others)?;
    Ok(spans)
}

/// All but the first values, so many.
pub fn later_values(alloc: Global, spans: &[Span], count: u128) -> Result<Vec<Span>, AllocError>
    requires { AreApart spans.now }
    ensures { IfOk result (λ v. v.items ≡ later_values count spans.now) }
{
    let mut left = count;
    for (i, span) in spans.iter().enumerate() {
        let width = width(*span);
        if left <= width {
            return with_rest(alloc, back(*span, left), &spans[i + 1..]);
        }
        left -= width + 1;
    }
    Ok(Vec::new(alloc))
}
