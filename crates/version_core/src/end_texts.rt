//! The ends of pieces as text. A place is the end of each piece that begins or ends there, so its text is kept for a
//! while: it takes longer to work out than to find.
ghost use Rattle.std.specs.Prelude.{◌≡◌, IfSome, IsTrue};
ghost use Rattle.overlay_terms.specs.Plane.{same_place};
ghost use Rattle.exact_point.specs.Place.{place};
ghost use Rattle.exact_point.specs.PlaceOf.{place_of};
ghost use Rattle.exact_point.specs.Reduced.{IsLowest};
ghost use Rattle.version_core.specs.Edges.{point_text};

use crate::place_text::PlaceText;
use exact_point::{HPoint, PointName};
use plane_base::Seg;
use std::alloc::Global;

/// The last place that a text is put at: as many are kept at once at most, and one more.
const LAST: u32 = 2047;

/// The place of a name in lowest terms, and its text.
#[derive(Debug, Drop)]
pub(crate) struct EndText {
    pub(crate) name: PointName,
    low: HPoint,
    pub(crate) text: PlaceText,
    ghost same: { IsTrue (same_place (place low) (place_of name)) },
    ghost lowest: { IsLowest (place low) },
    ghost is_text: { text ≡ point_text (place low) },
}

impl EndText {
    /// The text of a name's place.
    pub(crate) fn new(name: &PointName, low: HPoint, text: PlaceText) -> EndText
        requires same { IsTrue (same_place (place low) (place_of name.now)) }
        requires lowest { IsLowest (place low) }
        requires is_text { text ≡ point_text (place low) }
    {
        EndText {
            name: *name,
            low,
            text,
        }
    }
}

/// Where a text is among those that are kept, and the mark of its name.
#[derive(Clone, Copy, Debug)]
struct Spot {
    mark: u32,
    place: u32,
}

/// A spot where no text is.
const NOWHERE: Spot = Spot {
    mark: 0,
    place: u32::MAX,
};

/// The texts that are kept, of which the oldest gives way to a new one. Each mark has a spot, which holds where the
/// last text of such a name is: a name without a text is known by it mostly, without a look at the texts.
#[derive(Debug, Drop)]
pub(crate) struct EndTexts {
    kept: Vec<EndText>,
    /// None before the first text, and where there was no memory for them.
    spots: Vec<Spot>,
    /// The last place that a text is put at.
    last: u32,
    /// The place of the next text.
    next: u32,
    /// The place of the text of the last left end.
    left: u32,
}

impl EndTexts {
    /// For the ends of so many pieces. It takes no memory yet.
    pub(crate) fn new(alloc: Global, pieces: usize) -> EndTexts {
        EndTexts {
            kept: Vec::new(alloc),
            spots: Vec::new(alloc),
            last: u32::try_from(pieces).unwrap_or(LAST).min(LAST),
            next: 0,
            left: 0,
        }
    }

    /// The text of the place that has a name, if it is kept.
    pub(crate) fn find(&self, name: &PointName, mark: u32) -> Option<&EndText>
        ensures { IfSome result (λ kept. kept.now.name ≡ name.now) }
    {
        let spot = self.spot(mark);
        if spot.mark == mark {
            self.named_at(spot.place, name)
        } else {
            None
        }
    }

    /// The text of the last left end, if it has this name.
    pub(crate) fn find_left(&self, name: &PointName) -> Option<&EndText>
        ensures { IfSome result (λ kept. kept.now.name ≡ name.now) }
    {
        self.named_at(self.left, name)
    }

    /// Takes the last text of a mark as that of the last left end.
    pub(crate) fn take_left(&mut self, mark: u32) {
        self.left = self.spot(mark).place;
    }

    /// Keeps a text, where there is memory for it.
    pub(crate) fn keep(&mut self, text: EndText, mark: u32) {
        if self.spots.is_empty() {
            self.make_room();
        }
        // A text without a spot is never found.
        if self.spots.is_empty() {
            return;
        }
        let place = self.next;
        if self.put(place, text) {
            self.next = if place < self.last { place + 1 } else { 0 };
            self.point_to(place, mark);
        }
    }

    /// The text at a place, if it has this name.
    fn named_at(&self, place: u32, name: &PointName) -> Option<&EndText>
        ensures { IfSome result (λ kept. kept.now.name ≡ name.now) }
    {
        match self.kept.get(place as usize) {
            Some(kept) => {
                if is_same(&kept.name, name) {
                    Some(kept)
                } else {
                    None
                }
            }
            None => None,
        }
    }

    /// Puts a text at a place, in the place of the one there or after all others, and returns whether it could.
    fn put(&mut self, place: u32, text: EndText) -> bool {
        if let Some(kept) = self.kept.get_mut(place as usize) {
            *kept = text;
            return true;
        }
        self.kept.push(text).is_ok()
    }

    /// The spot of a mark.
    fn spot(&self, mark: u32) -> Spot {
        match self.spots.get(self.slot_of(mark)) {
            Some(spot) => *spot,
            None => NOWHERE,
        }
    }

    /// Has the spot of a mark name a place.
    fn point_to(&mut self, place: u32, mark: u32) {
        let slot = self.slot_of(mark);
        if let Some(spot) = self.spots.get_mut(slot) {
            *spot = Spot { mark, place };
        }
    }

    /// Where the spot of a mark is: as far among the spots as the mark among all marks.
    fn slot_of(&self, mark: u32) -> usize {
        (u64::from(mark).wrapping_mul(self.spots.len() as u64) >> 31) as usize
    }

    /// Makes room for all texts and their spots at once. Without it no text is found again, or room is made in smaller
    /// steps.
    fn make_room(&mut self) {
        let texts = (self.last as usize).saturating_add(1);
        let _ = self.kept.reserve(texts);
        let _ = self.spots.resize(texts.saturating_mul(2), NOWHERE);
    }
}

/// Whether two names of places that are no whole points are the same.
fn is_same(name: &PointName, other: &PointName) -> bool
    ensures { IsTrue result → name.now ≡ other.now }
{
    match (name, other) {
        (PointName::Cross(a, b), PointName::Cross(c, d)) => a == c && b == d,
        (PointName::Border(s, k), PointName::Border(t, l)) => s == t && k == l,
        _ => false,
    }
}

/// A number of at most 2^31 for a name. Two names seldom have the same one; for the factors any odd numbers would do.
pub(crate) fn mark_of(name: &PointName) -> u32 {
    let mixed = match name {
        PointName::Vertex(_) => 0,
        PointName::Cross(a, b) => mixed(a)
            .wrapping_mul(0x1E3779B97F4A7C15)
            .wrapping_add(mixed(b).wrapping_mul(0x42B2AE3D27D4EB4F)),
        PointName::Border(seg, _) => mixed(seg).wrapping_mul(0x1E3779B97F4A7C15),
    };
    (mixed.unsigned_abs() >> 32) as u32
}

/// The coordinates of a segment as one number: three of them side by side, the fourth times a large odd number.
fn mixed(seg: &Seg) -> i64 {
    let (left, right) = (seg.left(), seg.right());
    left.x()
        .wrapping_add(left.y().wrapping_mul(0x200000))
        .wrapping_add(right.x().wrapping_mul(0x40000000000))
        .wrapping_add(right.y().wrapping_mul(0x56E8FEB86659FD93))
}
