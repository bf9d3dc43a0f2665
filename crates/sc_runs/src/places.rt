//! Places of values in a set that is kept as spans. The least value is at the place 0.

ghost use Rattle.std.specs.Prelude.{◌≡◌, ◌≤◌, ◌+◌, ◌-◌, ◌+ℤ◌, pos, IfOk, slice_get};
ghost use Rattle.sc_base.specs.Spans.{width, members, AreApart, IsSpan};
ghost use Rattle.sc_runs.specs.Places.{last_places};

use crate::spans::{stepped, width};
use sc_base::Span;
use std::alloc::{AllocError, Global};

/// The place of the last value of each span.
pub fn last_places(alloc: Global, spans: &[Span]) -> Result<Vec<u128>, AllocError>
    requires { AreApart spans.now }
    ensures { IfOk result (λ v. v.items ≡ last_places 0 spans.now) }
{
    let mut places = Vec::new(alloc);
    let mut first = 0u128;
    for span in spans {
        let last = first + width(*span);
        places.push(last)?;
        let Some(next) = last.checked_add(1) else {
            return Ok(places);
        };
        first = next;
    }
    Ok(places)
}

/// The value of a span at a place, where the place of its last value is known.
fn value_in(span: Span, last: u128, place: u128) -> i128
    requires proper { IsSpan span }
    requires before { place ≤ last }
    requires within { last ≤ place + width span }
    ensures { result ≡ span.low +ℤ pos (width span - (last - place)) }
{
    stepped(span.low, width(span) - (last - place))
}

/// The value at a place, found by bisection of the places of the spans' last values. `None` where there are no more than `place` values.
pub fn nth(spans: &[Span], lasts: &[u128], place: u128) -> Option<i128>
    requires apart { AreApart spans.now }
    requires lasts { lasts.now ≡ last_places 0 spans.now }
    ensures { result ≡ slice_get (members spans.now) place }
{
    let at = lasts.partition_point(|last| *last < place);
    match spans.get(at) {
        Some(span) => Some(value_in(*span, lasts[at], place)),
        None => None,
    }
}
