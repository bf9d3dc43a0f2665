//! Tests of sums, quotients and opposites, with ample memory.

use super::{LinearError, Op, RowSum, TightenError, add_scaled, negate, single, tighten};
use sc_terms::{Atom, Memory, Row};
use std::alloc::Global;
use std::process::Abort;
use std::test::Fail;

/// A coefficient times an Int constant is at most a bound.
fn row(alloc: Global, coefficient: i128, constant: u32, bound: i128) -> Result<Row, Memory> {
    single(alloc, coefficient, Atom::Int(constant), bound)
}

/// The sum of two rows.
fn both(rt: &impl Abort, alloc: Global, a: &Row, b: &Row) -> Row {
    let sum = RowSum::new(alloc).plus(a, 1).expect(rt, "first");
    let sum = sum.plus(b, 1).expect(rt, "second");
    sum.into_row().expect(rt, "memory")
}

/// 2 x - 3 y <= 5 plus 3 y + z <= -7 is 2 x + z <= -2.
#[test]
fn like_atoms_are_added(rt: HostRuntime) -> Result<(), Fail> {
    let alloc = rt.alloc();
    let a = both(&rt, alloc, &row(alloc, 2, 1, 5)?, &row(alloc, -3, 2, 0)?);
    let b = both(&rt, alloc, &row(alloc, 1, 4, -7)?, &row(alloc, 3, 2, 0)?);
    let sum = add_scaled(alloc, &a, &b, 1).expect(&rt, "exact");
    assert!(rt; sum == both(&rt, alloc, &row(alloc, 1, 4, 0)?, &row(alloc, 2, 1, -2)?));
    Ok(())
}

/// The error of a sum.
fn wide(alloc: Global, a: &Row, b: &Row, m: i128) -> Option<LinearError> {
    add_scaled(alloc, a, b, m).err()
}

/// That the exact result of an operation has more than 128 bits.
fn too_wide(op: Op, a: i128, b: i128) -> Option<LinearError> {
    Some(LinearError::Wide { op, a, b })
}

/// A product comes before its sum, and the coefficients before the bound.
#[test]
fn the_first_wide_operation_is_named(rt: HostRuntime) -> Result<(), Fail> {
    let alloc = rt.alloc();
    let (most, half) = (i128::MAX, 1i128 << 126);
    let low = row(alloc, 1, 1, most)?;
    let high = row(alloc, most, 1, most)?;
    assert!(rt; wide(alloc, &low, &high, 1) == too_wide(Op::Add, 1, most));
    let bound = row(alloc, 0, 1, half)?;
    assert!(rt; wide(alloc, &low, &bound, 2) == too_wide(Op::Multiply, 2, half));
    let least = row(alloc, i128::MIN, 1, 0)?;
    assert!(rt; negate(alloc, &least).err() == too_wide(Op::Multiply, -1, i128::MIN));
    Ok(())
}

/// Bounds are rounded down, also below 0.
#[test]
fn quotients_and_opposites(rt: HostRuntime) -> Result<(), Fail> {
    let alloc = rt.alloc();
    let up = row(alloc, 3, 1, 7)?;
    let down = row(alloc, 3, 1, -7)?;
    assert!(rt; tighten(alloc, &up, 2).err() == Some(TightenError::NotDivisible));
    assert!(rt; tighten(alloc, &up, 3).expect(&rt, "exact") == row(alloc, 1, 1, 2)?);
    assert!(rt; tighten(alloc, &down, 3).expect(&rt, "exact") == row(alloc, 1, 1, -3)?);
    assert!(rt; negate(alloc, &up).expect(&rt, "exact") == row(alloc, -3, 1, -8)?);
    Ok(())
}
