use super::{FreshError, Runs, Span, Wide};
use std::process::Abort;
use std::test::Fail;

/// The set of the numbers from one of a pair to the other, for each pair.
fn of(rt: &(impl Abort + AllocGlobal), pairs: &[(i128, i128)]) -> Runs {
    let mut all = Runs::empty(rt.alloc());
    for (low, high) in pairs {
        let low = *low;
        let high = *high;
        assert!(rt; low <= high);
        let span = Runs::span(rt.alloc(), low, high).expect(rt, "memory");
        all = all.union(&span).expect(rt, "memory");
    }
    all
}

#[test]
fn whole(rt: HostRuntime) -> Result<(), Fail> {
    let all = of(&rt, &[(i128::MIN, i128::MAX)]);
    assert_eq!(rt; all.card(), Err(Wide));
    assert!(rt; matches!(all.take_fresh(1), Err(FreshError::Wide)));
    assert_eq!(rt; all.nth(u128::MAX), Some(i128::MAX));
    Ok(())
}

#[test]
fn operations(rt: HostRuntime) -> Result<(), Fail> {
    let left = of(&rt, &[(1, 3), (7, 9), (5, 5), (4, 4)]);
    let right = of(&rt, &[(-2, 1), (8, 20)]);
    let rows: [(Runs, &[(i128, i128)]); 5] = [
        (
            left.union(&right).expect(&rt, "memory"),
            &[(-2, 5), (7, 20)],
        ),
        (left.inter(&right).expect(&rt, "memory"), &[(1, 1), (8, 9)]),
        (left.minus(&right).expect(&rt, "memory"), &[(2, 5), (7, 7)]),
        (
            right.take_fresh(8).expect(&rt, "memory"),
            &[(2, 7), (21, 22)],
        ),
        (
            Runs::empty(rt.alloc()).take_fresh(3).expect(&rt, "memory"),
            &[(0, 2)],
        ),
    ];
    for (set, pairs) in &rows {
        assert!(rt; set.same(&of(&rt, pairs)));
    }
    Ok(())
}

#[test]
fn spans(rt: HostRuntime) -> Result<(), Fail> {
    let spans = [Span { low: -7, high: -6 }, Span { low: 2, high: 4 }];
    let set = Runs::from_spans(rt.alloc(), &spans).expect(&rt, "memory");
    assert_eq!(rt; set.spans(), spans.as_slice());
    assert_eq!(rt; set.card(), Ok(5));
    let rows = [
        (0, Some(-7)),
        (1, Some(-6)),
        (2, Some(2)),
        (4, Some(4)),
        (5, None),
    ];
    for (place, value) in &rows {
        assert_eq!(rt; set.nth(*place), *value);
    }
    Ok(())
}
