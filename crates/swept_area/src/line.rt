//! The line of a segment, as marks need it.
ghost use Rattle.std.specs.Prelude.{◌≡◌, ◌^◌, ◌+ℤ◌, ◌-ℤ◌, ◌*ℤ◌, ◌<ℤ◌, pos, unsigned_abs};
ghost use Rattle.overlay_terms.specs.Plane.{InRange};
ghost use Rattle.overlay_terms.specs.Within.{IsWithin};
ghost use Rattle.swept_area.specs.Swept.{cross_of, is_flat, is_rising, length_of, rise_of, run_of, turn_of};
ghost use Rattle.swept_area.specs.SweptLaws.{IsSegment};
ghost use Rattle.swept_area.specs.Pieces.{IsNearLine, segment_from};

use crate::piece::Shift;
use exact_point::minus;
use plane_base::Seg;

/// The line of a segment: twice the area that its way sweeps over, on which x grows, or y where it leads farther along y;
/// and how far it leads along that.
#[derive(Clone, Copy, Debug)]
pub(crate) struct Line {
    pub turn: i128,
    pub length: i128,
    pub is_flat: bool,
    pub ghost low: { pos 0 <ℤ length },
    pub ghost small: { IsWithin (2 ^ 21) length },
    pub ghost near: { IsNearLine turn length },
}

/// A whole coordinate, seen from the origin.
fn placed(x: i64, by: i64) -> i64
    requires x_small { InRange x }
    requires by_small { IsWithin (2 ^ 41) by }
    ensures value { result ≡ x +ℤ by }
    ensures small { IsWithin (2 ^ 42) result }
{
    x + by
}

/// The cross product of the place (x, y) and the way (run, rise).
fn cross(x: i64, y: i64, run: i64, rise: i64) -> i128
    requires x_small { IsWithin (2 ^ 42) x }
    requires y_small { IsWithin (2 ^ 42) y }
    requires run_small { IsWithin (2 ^ 21) run }
    requires rise_small { IsWithin (2 ^ 21) rise }
    ensures value { result ≡ (x *ℤ rise) -ℤ (y *ℤ run) }
    ensures small { IsWithin (2 ^ 64) result }
{
    i128::from(x) * i128::from(rise) - i128::from(y) * i128::from(run)
}

/// How large a way is, whatever its sign.
fn size(way: i64) -> i64
    requires small { IsWithin (2 ^ 21) way }
    ensures value { result ≡ pos (unsigned_abs way) }
    ensures small { IsWithin (2 ^ 21) result }
{
    if way < 0 { -way } else { way }
}

/// How far a segment leads to the right.
fn run(seg: &Seg) -> i64
    ensures value { result ≡ run_of seg.now }
    ensures small { IsWithin (2 ^ 21) result }
    ensures first { IsSegment seg.now }
{
    minus(seg.right().x(), seg.left().x())
}

/// How far it leads up.
fn rise(seg: &Seg) -> i64
    ensures value { result ≡ rise_of seg.now }
    ensures small { IsWithin (2 ^ 21) result }
    ensures first { IsSegment seg.now }
{
    minus(seg.right().y(), seg.left().y())
}

/// The cross product of a segment's ends, seen from the origin.
fn cross_from(seg: &Seg, by: &Shift) -> i128
    ensures value { result ≡ cross_of (segment_from by.now seg.now) }
    ensures small { IsWithin (2 ^ 64) result }
    ensures near { IsNearLine result (length_of seg.now) }
{
    let left = seg.left();
    cross(
        placed(left.x(), by.x),
        placed(left.y(), by.y),
        run(seg),
        rise(seg),
    )
}

/// Whether a segment leads at least as far to the right as up or down.
fn leads_right(seg: &Seg) -> bool
    ensures { result ≡ is_flat seg.now }
{
    size(rise(seg)) <= run(seg)
}

/// Whether x grows on its way, or y where it leads farther along that.
fn rises(seg: &Seg) -> bool
    ensures { result ≡ is_rising seg.now }
{
    if leads_right(seg) {
        return true;
    }
    rise(seg) >= 0
}

/// How far it leads along x, or along y where that is farther.
fn length(seg: &Seg) -> i64
    ensures value { result ≡ length_of seg.now }
    ensures small { IsWithin (2 ^ 21) result }
    ensures low { pos 0 <ℤ result }
{
    if leads_right(seg) {
        return run(seg);
    }
    size(rise(seg))
}

/// The cross product on the way on which x grows, or y where the segment leads farther along that.
fn turn_from(seg: &Seg, by: &Shift) -> i128
    ensures value { result ≡ turn_of (segment_from by.now seg.now) }
    ensures small { IsWithin (2 ^ 64) result }
    ensures near { IsNearLine result (length_of seg.now) }
{
    let cross = cross_from(seg, by);
    if rises(seg) {
        return cross;
    }
    -cross
}

/// The line of a segment, seen from the origin.
pub(crate) fn line_from(seg: &Seg, by: &Shift) -> Line
    ensures flat { result.is_flat ≡ is_flat (segment_from by.now seg.now) }
    ensures length { result.length ≡ length_of (segment_from by.now seg.now) }
    ensures turn { result.turn ≡ turn_of (segment_from by.now seg.now) }
{
    Line {
        turn: turn_from(seg, by),
        length: i128::from(length(seg)),
        is_flat: leads_right(seg),
    }
}
