//! Where a point lies against rings.
ghost use Rattle.std.specs.Prelude.{◌≡◌, ◌≤ℤ◌, pos, false, not, IfSome, IsSome, All, if◌then◌else◌};
ghost use Rattle.block_reading.specs.Block.{dealt};
ghost use Rattle.feature_spots.specs.Spots.{spot_of, number_of, loop_of, steps_of, is_on_steps, is_within, IsNear, IsFine};

use crate::seeing::{NOTHING, Seen, see};
use crate::spot::Spot;
use block_reading::{FarFraction, FarPoint};
use feature_windows::parted;

/// The greatest denominator of a point that is looked for.
const FINE_MAX: i64 = 4398046511104;

/// The other one, where it is turned.
fn turned(odd: bool, by: bool) -> bool
    ensures { result ≡ (if by then not odd else odd) }
{
    if by { !odd } else { odd }
}

/// Whether a point is on a step of a ring; if not, whether an odd number of them is below it. None where numbers are too
/// large.
fn look(ring: &[FarPoint], p: &FarFraction) -> Option<Seen>
    ensures on { IfSome result (λ seen. seen.on ≡ is_on_steps p.now (loop_of ring.now)) }
    ensures below { IfSome result (λ seen. seen.on ≡ false → seen.below ≡ is_within p.now (loop_of ring.now)) }
    ensures some { All IsNear ring.now → IsFine p.now → IsSome result }
{
    let Some(last) = ring.last() else {
        return Some(NOTHING);
    };
    let mut from = *last;
    let mut odd = false;
    for to in ring {
        let seen = see(from, *to, p)?;
        if seen.on {
            return Some(seen);
        }
        odd = turned(odd, seen.below);
        from = *to;
    }
    Some(Seen {
        on: false,
        below: odd,
    })
}

/// The same of all rings, given as so many points each in a row.
fn look_at_all(counts: &[u32], points: &[FarPoint], p: &FarFraction) -> Option<Seen>
    ensures on { IfSome result (λ seen. seen.on ≡ is_on_steps p.now (steps_of (dealt counts.now points.now))) }
    ensures below { IfSome result (λ seen. seen.on ≡ false → seen.below ≡ is_within p.now (steps_of (dealt counts.now points.now))) }
    ensures some { All (All IsNear) (dealt counts.now points.now) → IsFine p.now → IsSome result }
{
    let mut rest = points;
    let mut odd = false;
    for count in counts {
        let (ring, after) = parted(rest, *count);
        let seen = look(ring, p)?;
        if seen.on {
            return Some(seen);
        }
        odd = turned(odd, seen.below);
        rest = after;
    }
    Some(Seen {
        on: false,
        below: odd,
    })
}

/// Where a point lies against the rings of a feature, given as so many points each in a row; none where numbers are too
/// large.
pub fn locate(counts: &[u32], points: &[FarPoint], p: &FarFraction) -> Option<Spot>
    ensures spot { IfSome result (λ spot. spot ≡ spot_of (dealt counts.now points.now) p.now) }
    ensures some { All (All IsNear) (dealt counts.now points.now) → pos 1 ≤ℤ p.now.w → IsSome result }
{
    if p.w > FINE_MAX {
        return Some(Spot::TooFine);
    }
    let seen = look_at_all(counts, points, p)?;
    if seen.on {
        return Some(Spot::OnEdge);
    }
    if seen.below {
        return Some(Spot::Inside);
    }
    Some(Spot::Outside)
}

/// The number by which a row says where a point lies; that of one that is not looked for, where numbers are too large.
pub fn spot_number(counts: &[u32], points: &[FarPoint], p: &FarFraction) -> u32
    ensures { All (All IsNear) (dealt counts.now points.now) → pos 1 ≤ℤ p.now.w
        → result ≡ number_of (spot_of (dealt counts.now points.now) p.now) }
{
    match locate(counts, points, p) {
        Some(spot) => spot.number(),
        None => 3,
    }
}
