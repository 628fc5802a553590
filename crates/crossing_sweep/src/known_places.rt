//! The places of a strip that are known before a pass over it: ends of segments and border places.
ghost use Rattle.std.specs.Prelude.{◌≡◌, ◌<◌, ◌≤◌, ◌+◌, ℕ, ◌++◌, [], ◌∷◌, true, List};
ghost use Rattle.std.specs.Prelude.{map, AllPairs, Contains, IfOk, IfSome, IsNone, OnOk};
ghost use Rattle.std.specs.declared.cmp.Ordering.TheVariants.{Less};
ghost use Rattle.exact_point.specs.declared.point_name.PointName.{PointName};
ghost use Rattle.exact_point.specs.PointName.{IsCutBy};
ghost use Rattle.overlay_terms.specs.Column.{border};
ghost use Rattle.overlay_terms.specs.Plane.{whole};
ghost use Rattle.crossing_sweep.specs.StripInput.{is_in_closed_strip};
ghost use Rattle.crossing_sweep.specs.Ahead.{AreKnownPlaces, AreOffered, HasEnds, cut_names, known_names};
ghost use Rattle.crossing_sweep.specs.RankedPlace.{ranked_cmp, ranked_entry};

use crate::ahead::Ahead;
use crate::by_reference::{copied, references};
use crate::pass_input::PassInput;
use crate::rank::{rank, rank_over};
use crate::ranked_place::RankedPlace;
use crate::strip::Strip;
use exact_point::{NearPoint, PointName};
use plane_base::{COLUMN_COUNT, COLUMN_WIDTH, Column, Pt, Seg, column_of};
use std::alloc::{AllocError, Global};

/// The ends of an input's segments, and where the borders of the strip cut them, in the closed
/// strip.
pub(crate) fn known_places(alloc: Global, input: &PassInput) -> Result<Ahead, AllocError>
    ensures { IfOk result (λ ahead. AreKnownPlaces input.now ahead) }
{
    let places = places_in_order(alloc, input)?;
    Ok(Ahead::of(alloc, places))
}

/// These places in their order, each once: a place of several segments under one of its names.
fn places_in_order(alloc: Global, input: &PassInput) -> Result<Vec<RankedPlace>, AllocError>
    ensures known { IfOk result (λ places. AreKnownPlaces input.now (map ranked_entry places.items)) }
    ensures in_order { IfOk result (λ places. AllPairs (λ a b. ranked_cmp a b ≡ Less) places.items) }
{
    let mut places = Vec::with_capacity(alloc, room_for_places(input))?;
    let mut before = None;
    for m in input.marked() {
        offer_own(&mut places, &m.seg, &before, input.strip())?;
        before = Some(m.seg);
    }
    // A place is large: what is moved to and fro is where it is kept.
    let mut order = references(alloc, &places)?;
    order.sort_unstable();
    order.dedup();
    let list = copied(alloc, &order)?;
    Ok(list)
}

/// Room for all places of most inputs: of each segment an end, a cut, and one more for each width of a column.
fn room_for_places(input: &PassInput) -> usize {
    let strip = input.strip();
    let columns = strip.last().number().wrapping_sub(strip.first().number());
    let mut room = 0_usize;
    for m in input.marked() {
        let across = m.seg.right().x().wrapping_sub(m.seg.left().x());
        let cuts = usize::from(columns).min(
            (across.unsigned_abs() / COLUMN_WIDTH.unsigned_abs()) as usize,
        );
        room = room.wrapping_add(cuts).wrapping_add(2);
    }
    room
}

/// Offers the ends of a segment and where the strip's borders cut it. The segment before it in a ring has one of its ends.
fn offer_own(
    places: &mut Vec<RankedPlace>,
    seg: &Seg,
    before: &Option<Seg>,
    strip: Strip,
) -> Result<(), AllocError>
    ensures { OnOk result ((names : List PointName) → HasEnds names before.now → AreOffered strip names (map ranked_entry places.old.items) → AreOffered strip (names ++ known_names seg.now strip) (map ranked_entry places.new.items)) }
{
    offer_new_end(places, seg.left(), before, strip)?;
    offer_new_end(places, seg.right(), before, strip)?;
    offer_cuts(places, seg, strip)?;
    Ok(())
}

/// Adds the places where the strip's borders cut a segment, those between its columns too. Only those between its ends
/// are looked at.
fn offer_cuts(places: &mut Vec<RankedPlace>, seg: &Seg, strip: Strip) -> Result<(), AllocError>
    ensures { OnOk result ((names : List PointName) → AreOffered strip names (map ranked_entry places.old.items) → AreOffered strip (names ++ cut_names seg.now strip) (map ranked_entry places.new.items)) }
{
    let end = strip.last().number() + 2;
    let from = strip.first().number().max(first_cut(seg)).min(end);
    let to = end.min(cuts_end(seg));
    for number in from..to {
        offer_cut(places, seg, number, strip)?;
    }
    Ok(())
}

/// The number of the first border right of a segment's left end: none before it cuts the segment.
fn first_cut(seg: &Seg) -> u8
    ensures { (k : ℕ) → k < result → IsCutBy seg.now k → ⊥ }
{
    match column_of(i128::from(seg.left().x()), 1) {
        Some(column) => column.number() + 1,
        None => 0,
    }
}

/// The number of the first border right of a segment's right end: neither it nor one after it cuts the segment.
fn cuts_end(seg: &Seg) -> u8
    ensures { (k : ℕ) → result ≤ k → IsCutBy seg.now k → ⊥ }
{
    match column_of(i128::from(seg.right().x()), 1) {
        Some(column) => column.number() + 1,
        None => COLUMN_COUNT,
    }
}

/// Adds the place where the border with a number cuts a segment, if it does.
fn offer_cut(
    places: &mut Vec<RankedPlace>,
    seg: &Seg,
    number: u8,
    strip: Strip,
) -> Result<(), AllocError>
    requires from { strip.first ≤ number }
    requires to { number ≤ strip.last + 1 }
    ensures { OnOk result ((names : List PointName) → AreOffered strip names (map ranked_entry places.old.items) → AreOffered strip (names ++ PointName.Border seg.now number ∷ []) (map ranked_entry places.new.items)) }
{
    let Some(x) = border_between(seg, number) else {
        return Ok(());
    };
    let name = PointName::Border(*seg, number);
    let at = NearPoint::on_border(seg, number, x);
    places.push(RankedPlace {
        name,
        rank: rank_over(x, &at.point()),
        at,
    })?;
    Ok(())
}

/// The x of the border with a number, if there is one and it lies strictly between the ends of a segment.
fn border_between(seg: &Seg, number: u8) -> Option<i64>
    ensures cut { IfSome result (λ _. IsCutBy seg.now number) }
    ensures value { IfSome result (λ x. x ≡ border number) }
    ensures none { IsNone result → IsCutBy seg.now number → ⊥ }
{
    let Some(column) = Column::new(u64::from(number)) else {
        return None;
    };
    let x = column.border();
    if x <= seg.left().x() {
        return None;
    }
    if seg.right().x() <= x {
        return None;
    }
    Some(x)
}

/// Adds an end of a segment, unless the segment before has it too: then it has been offered.
fn offer_new_end(
    places: &mut Vec<RankedPlace>,
    vertex: Pt,
    before: &Option<Seg>,
    strip: Strip,
) -> Result<(), AllocError>
    ensures { OnOk result ((names : List PointName) → HasEnds names before.now → AreOffered strip names (map ranked_entry places.old.items) → AreOffered strip (names ++ PointName.Vertex vertex ∷ []) (map ranked_entry places.new.items)) }
{
    if is_end_of(before, vertex) {
        return Ok(());
    }
    offer_end(places, vertex, strip)?;
    Ok(())
}

/// Whether a point is an end of a segment, if there is one.
fn is_end_of(before: &Option<Seg>, vertex: Pt) -> bool
    ensures { result ≡ true → (names : List PointName) → HasEnds names before.now → Contains names (PointName.Vertex vertex) }
{
    let Some(seg) = before else {
        return false;
    };
    if seg.left() == vertex {
        return true;
    }
    seg.right() == vertex
}

/// Adds an end of a segment, if it lies in the closed strip. Most do not, and no exact place is made of these.
fn offer_end(places: &mut Vec<RankedPlace>, vertex: Pt, strip: Strip) -> Result<(), AllocError>
    ensures { OnOk result ((names : List PointName) → AreOffered strip names (map ranked_entry places.old.items) → AreOffered strip (names ++ PointName.Vertex vertex ∷ []) (map ranked_entry places.new.items)) }
{
    if !is_end_within(strip, vertex) {
        return Ok(());
    }
    let at = NearPoint::whole(vertex);
    places.push(RankedPlace {
        name: PointName::Vertex(vertex),
        rank: rank(&at.point()),
        at,
    })?;
    Ok(())
}

/// Whether a whole point lies from a strip's left border to its right border.
#[tactic(auto, using(crate::proofs::KnownEnds::whole_within))]
fn is_end_within(strip: Strip, vertex: Pt) -> bool
    ensures { result ≡ is_in_closed_strip strip (whole vertex) }
{
    let x = vertex.x();
    // Eager, so that one equation says all: neither side costs more than a comparison.
    (strip.border() <= x) & (x <= strip.end())
}
