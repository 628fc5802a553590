//! Where a status passes under a place, through it and over it.
ghost use Rattle.std.specs.Prelude.{pos, ◌<ℤ◌, ◌≤ℤ◌, ◌≤◌, ◌≡◌, true, All, length, take, drop};
ghost use Rattle.std.specs.List.{prefix_len, slice_range};
ghost use Rattle.std.specs.Ordering.{is_ge, is_gt};
ghost use Rattle.overlay_terms.specs.Plane.{height_over, side_of};
ghost use Rattle.exact_point.specs.Place.{place};
ghost use Rattle.crossing_sweep.specs.Status.{SidesFallAlong};
ghost use Rattle.crossing_sweep.specs.Step.{IsSplitAt};
ghost use Rattle.crossing_sweep.specs.Member.{segs_of, IsHeldAt};

use crate::member::Member;
use exact_point::side::side;
use exact_point::{HPoint, NearPoint};
use std::cmp::Ordering;

/// Where the members of a status that hold a place begin and end. It is looked for at a hint first: the nodes of
/// a border come from the bottom to the top, so the next one mostly lies where the status changed last.
fn bundle_at(status: &[Member], at: &HPoint, hint: usize) -> (usize, usize)
    ensures in_order { result.0 ≤ result.1 }
    ensures few { result.1 ≤ length status.now }
    ensures split { SidesFallAlong (place at.now) (segs_of status.now) →
        IsSplitAt (place at.now) (segs_of (take result.0 status.now))
        (segs_of (slice_range status.now result.0 result.1)) (segs_of (drop result.1 status.now)) }
{
    let (low, held) = count_under(status, at, hint);
    let count = count_from(status, at, low, held);
    (low, low + count)
}

/// The same of a place in 64 bits.
pub(crate) fn near_bundle_at(status: &[Member], at: NearPoint, hint: usize) -> (usize, usize)
    ensures in_order { result.0 ≤ result.1 }
    ensures few { result.1 ≤ length status.now }
    ensures split { SidesFallAlong (place at) (segs_of status.now) →
        IsSplitAt (place at) (segs_of (take result.0 status.now))
        (segs_of (slice_range status.now result.0 result.1)) (segs_of (drop result.1 status.now)) }
{
    bundle_at(status, &at.point(), hint)
}

/// How many members of a status pass under a place, and whether the next one is known to hold it.
fn count_under(status: &[Member], at: &HPoint, hint: usize) -> (usize, bool)
    ensures few { result.0 ≤ length status.now }
    ensures under { SidesFallAlong (place at.now) (segs_of status.now)
        → All (λ m. pos 0 <ℤ height_over m.unit.seg (place at.now)) (take result.0 status.now) }
    ensures not_under { SidesFallAlong (place at.now) (segs_of status.now)
        → All (λ m. height_over m.unit.seg (place at.now) ≤ℤ pos 0) (drop result.0 status.now) }
    ensures held { result.1 ≡ true → IsHeldAt (place at.now) status.now result.0 }
{
    let (low, high, held) = narrowed(status, at, hint.min(status.len()));
    if held {
        return (low, true);
    }
    (
        low + status[low..high].partition_point(|member| is_under(member, at)),
        false,
    )
}

/// A range of a status that holds the end of those that pass under a place, an empty one if that is the hint; and
/// whether the member at the hint is known to hold the place.
fn narrowed(status: &[Member], at: &HPoint, hint: usize) -> (usize, usize, bool)
    requires { hint ≤ length status.now }
    ensures in_order { result.0 ≤ result.1 }
    ensures few { result.1 ≤ length status.now }
    ensures under { SidesFallAlong (place at.now) (segs_of status.now)
        → All (λ m. pos 0 <ℤ height_over m.unit.seg (place at.now)) (take result.0 status.now) }
    ensures not_under { SidesFallAlong (place at.now) (segs_of status.now)
        → All (λ m. height_over m.unit.seg (place at.now) ≤ℤ pos 0) (drop result.1 status.now) }
    ensures held { result.2 ≡ true → (result.0 ≡ result.1) × IsHeldAt (place at.now) status.now result.0 }
{
    if hint > 0 && !is_under(&status[hint - 1], at) {
        return (0, hint - 1, false);
    }
    narrowed_from(status, at, hint)
}

/// The same where all before the hint pass under the place.
fn narrowed_from(status: &[Member], at: &HPoint, hint: usize) -> (usize, usize, bool)
    requires few { hint ≤ length status.now }
    requires under { SidesFallAlong (place at.now) (segs_of status.now)
        → All (λ m. pos 0 <ℤ height_over m.unit.seg (place at.now)) (take hint status.now) }
    ensures in_order { result.0 ≤ result.1 }
    ensures few { result.1 ≤ length status.now }
    ensures under { SidesFallAlong (place at.now) (segs_of status.now)
        → All (λ m. pos 0 <ℤ height_over m.unit.seg (place at.now)) (take result.0 status.now) }
    ensures not_under { SidesFallAlong (place at.now) (segs_of status.now)
        → All (λ m. height_over m.unit.seg (place at.now) ≤ℤ pos 0) (drop result.1 status.now) }
    ensures held { result.2 ≡ true → (result.0 ≡ result.1) × IsHeldAt (place at.now) status.now result.0 }
{
    if status.len() <= hint {
        return (hint, hint, false);
    }
    match side(&status[hint].unit.seg, at) {
        Ordering::Less => (hint, hint, false),
        Ordering::Equal => (hint, hint, true),
        Ordering::Greater => (hint + 1, status.len(), false),
    }
}

/// Whether a member passes under a place.
fn is_under(member: &Member, at: &HPoint) -> bool
    ensures { result ≡ is_gt (side_of member.now.unit.seg (place at.now)) }
{
    side(&member.unit.seg, at).is_gt()
}

/// How many members of a status, from the lowest one on, do not pass over a place. They are looked at
/// one by one: few hold a place, and the pieces of each of them are closed there.
fn count_not_over(status: &[Member], at: &HPoint) -> usize
    ensures { result ≡ prefix_len (λ m. is_ge (side_of m.unit.seg (place at.now))) status.now }
{
    status
        .iter()
        .take_while(|member| side(&member.unit.seg, at).is_ge())
        .count()
}

/// The same from a number on, where the first of them may be known to hold it.
fn count_from(status: &[Member], at: &HPoint, low: usize, held: bool) -> usize
    requires few { low ≤ length status.now }
    requires held { held ≡ true → IsHeldAt (place at.now) status.now low }
    ensures { result ≡ prefix_len (λ m. is_ge (side_of m.unit.seg (place at.now))) (drop low status.now) }
{
    if held {
        return count_not_over(&status[low + 1..], at) + 1;
    }
    count_not_over(&status[low..], at)
}
