//! The members that go on after a place, with those that enter there.
ghost use Rattle.std.specs.Prelude.{pos, ◌≤ℤ◌, AllPairs, ◌≡◌, ◌++◌, map, filter, OnOk};
ghost use Rattle.std.specs.List.{prefix_len};
ghost use Rattle.std.specs.List.Sorted.{IsPermutation};
ghost use Rattle.exact_point.specs.Crossing.{turn_of};
ghost use Rattle.exact_point.specs.Place.{place, same_hpoint};
ghost use Rattle.crossing_sweep.specs.Member.{units_of, segs_of, ends_after};

use crate::member::Member;
use crate::rank::{ranked_cmp, whole_rank};
use crate::ranked_place::RankedPlace;
use crate::start::Start;
use exact_point::NearPoint;
use plane_base::Seg;
use std::alloc::AllocError;

/// Whether a segment ends after a place.
pub(crate) fn ends_after(seg: &Seg, node: &RankedPlace) -> bool
    ensures { result ≡ ends_after (place node.now.at) seg.now }
{
    let right = NearPoint::whole(seg.right());
    ranked_cmp(node.rank, &node.at, whole_rank(seg.right()), &right).is_lt()
}

/// Makes a list of the members of a bundle that go on after a place, with the units that enter there
/// and go on, in the order of their directions. The list's memory serves again.
pub(crate) fn turned(
    stay: &mut Vec<Member>,
    bundle: &[Member],
    entering: &[Start],
    node: &RankedPlace,
    begin: usize,
) -> Result<(), AllocError>
    ensures moved { OnOk result
        (IsPermutation (filter (λ u. ends_after (place node.now.at) u.seg)
        (units_of bundle.now ++ map (λ s. s.unit) entering.now)) (units_of stay.new.items)) }
    ensures turned { OnOk result (AllPairs (λ a b. pos 0 ≤ℤ turn_of a b) (segs_of stay.new.items)) }
{
    staying(stay, bundle, node)?;
    enter(stay, entering, node, begin)?;
    // Mostly one goes on, and is in order.
    if stay.len() > 1 {
        stay.sort_unstable();
    }
    Ok(())
}

/// Makes a list of the members that go on after a place that they hold.
fn staying(stay: &mut Vec<Member>, bundle: &[Member], node: &RankedPlace) -> Result<(), AllocError>
    ensures { OnOk result (stay.new.items ≡ filter (λ m. ends_after (place node.now.at) m.unit.seg) bundle.now) }
{
    stay.clear();
    for member in bundle {
        if ends_after(&member.unit.seg, node) {
            stay.push(*member)?;
        }
    }
    Ok(())
}

/// Whether a unit enters at a place.
fn enters_at(start: &Start, node: &RankedPlace) -> bool
    ensures { result ≡ same_hpoint start.now.at node.now.at }
{
    ranked_cmp(start.rank, &start.at, node.rank, &node.at).is_eq()
}

/// How many of the units to come enter at a place: the first ones.
pub(crate) fn count_entering(coming: &[Start], node: &RankedPlace) -> usize
    ensures { result ≡ prefix_len (λ s. same_hpoint s.at node.now.at) coming.now }
{
    coming
        .iter()
        .take_while(|start| enters_at(start, node))
        .count()
}

/// Adds the units that enter at a place and go on after it.
fn enter(
    stay: &mut Vec<Member>,
    entering: &[Start],
    node: &RankedPlace,
    begin: usize,
) -> Result<(), AllocError>
    ensures { OnOk result (units_of stay.new.items
        ≡ units_of stay.old.items
        ++ filter (λ u. ends_after (place node.now.at) u.seg) (map (λ s. s.unit) entering.now)) }
{
    for start in entering {
        if ends_after(&start.unit.seg, node) {
            stay.push(Member {
                unit: start.unit,
                begin,
                over: 0,
                value: false,
                differs: false,
            })?;
        }
    }
    Ok(())
}
