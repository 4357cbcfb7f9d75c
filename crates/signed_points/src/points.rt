//! Signed points, sorted and merged.

ghost use Rattle.std.specs.Prelude.{◌≡◌, ◌+◌, ◌^◌, ◌≤◌, pos, neg_ℤ, ◌≤ℤ◌, IfOk, OnOk, length};
ghost use Rattle.signed_points.specs.Points.{AddsPoint, AreMergedUpTo, IsAscending, IsInOrder, IsSigned, IsTakenAt, SameSums, SignsWithin};

use std::alloc::{AllocError, Global};

/// A lattice point with a sign, or the sum of the signs at it. Points are sorted by line, and on a line by place.
#[derive(Clone, Copy, PartialEq, Eq, PartialOrd, Ord, Debug)]
pub struct Point {
    pub line: i32,
    pub place: i32,
    pub sign: i64,
}

/// The points with those at one place made one, whose sign is their sum, and without those whose sign is then 0.
pub fn merge_points(alloc: Global, points: &[Point]) -> Result<Vec<Point>, AllocError>
    requires order { IsInOrder points.now }
    requires signs { SignsWithin 1 points.now }
    ensures ascending { IfOk result (λ ps. IsAscending ps.items) }
    ensures signed { IfOk result (λ ps. IsSigned ps.items) }
    ensures sums { IfOk result (λ ps. SameSums ps.items points.now) }
    ensures few { IfOk result (λ ps. length ps.items ≤ length points.now) }
{
    let mut merged = Vec::new(alloc);
    for point in points {
        add_point(&mut merged, *point)?;
    }
    Ok(merged)
}

/// Adds the point's sign to the last point, if that is at the same place, or else the point.
fn add_point(merged: &mut Vec<Point>, point: Point) -> Result<(), AllocError>
    requires merged { AreMergedUpTo point merged.old.items }
    requires signs { SignsWithin (2 ^ 61) merged.old.items }
    requires sign { (neg_ℤ (pos 1) ≤ℤ point.sign) × (point.sign ≤ℤ pos 1) }
    ensures adds { OnOk result (AddsPoint point merged.old.items merged.new.items) }
    ensures few { OnOk result (length merged.new.items ≤ length merged.old.items + 1) }
{
    let sign = take_sign(merged, &point) + point.sign;
    if sign != 0 {
        merged.push(Point {
            line: point.line,
            place: point.place,
            sign,
        })?;
    }
    Ok(())
}

/// Takes the last point away if it is at this place. The answer is its sign, or 0.
fn take_sign(merged: &mut Vec<Point>, point: &Point) -> i64
    ensures taken { IsTakenAt point.now merged.old.items merged.new.items result }
    ensures few { length merged.new.items ≤ length merged.old.items }
{
    let Some(&last) = merged.last() else {
        return 0;
    };
    if last.line != point.line || last.place != point.place {
        return 0;
    }
    merged.pop();
    last.sign
}
