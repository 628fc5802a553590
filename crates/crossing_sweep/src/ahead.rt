//! The places that a sweep has found ahead, each with a name.
ghost use Rattle.std.specs.Prelude.{◌≡◌, ◌⊎◌, true, false, [], ◌∷◌, All, AllPairs, Any, Contains, map};
ghost use Rattle.std.specs.Prelude.{IfSome, IfNone, IsNone, IsTrue, ◌↔◌, OnOk};
ghost use Rattle.std.specs.declared.cmp.Ordering.TheVariants.{Less, Equal};
ghost use Rattle.overlay_terms.specs.Plane.{point_cmp};
ghost use Rattle.exact_point.specs.Place.{place, hpoint_cmp};
ghost use Rattle.exact_point.specs.declared.point.HPoint.{HPoint};
ghost use Rattle.exact_point.specs.declared.point_name.PointName.{PointName};
ghost use Rattle.crossing_sweep.specs.RankedPlace.{ranked_cmp, ranked_entry};
ghost use Rattle.crossing_sweep.specs.Ahead.{HasAdded, LiesOverWhole, is_first_before};

use crate::rank::{is_between, rank};
use crate::ranked_place::RankedPlace;
use exact_point::{NearPoint, PointName};
use std::alloc::{AllocError, Global};
use std::collections::BTreeSet;
use std::marker::Model;

/// Places in their order, each once, under one of its names. Known places are in one sorted list, the first `taken`
/// of which are out; those found since are in a tree, and none of them is a known one still in the list. All have their
/// ranks, which tell the order of most.
#[derive(Drop)]
pub(crate) struct Ahead {
    known: Vec<RankedPlace>,
    taken: usize,
    found: BTreeSet<RankedPlace>,
}

impl Model for Ahead {
    ghost use Rattle.std.specs.Prelude.{List, map, drop};
    ghost use Rattle.exact_point.specs.declared.point.HPoint.{HPoint};
    ghost use Rattle.exact_point.specs.declared.point_name.PointName.{PointName};
    ghost use Rattle.crossing_sweep.specs.Ahead.{put_all, AreAhead};
    ghost use Rattle.crossing_sweep.specs.RankedPlace.{ranked_entry};

    ghost Value = { List (HPoint × PointName) };

    ghost view = { λ a. put_all (map ranked_entry a.found.keys) (map ranked_entry (drop a.taken a.known.items)) };

    ghost invariant = { λ a. AreAhead a.known.items a.taken (map ranked_entry a.found.keys) };
}

impl Ahead {
    /// Known places in their order, each once: ends of segments and places on borders, all over whole x.
    pub(crate) fn of(alloc: Global, known: Vec<RankedPlace>) -> Ahead
        requires in_order { AllPairs (λ a b. ranked_cmp a b ≡ Less) known.items }
        requires whole { All LiesOverWhole known.items }
        ensures { result ≡ map ranked_entry known.items }
    {
        Ahead {
            known,
            taken: 0,
            found: BTreeSet::new(alloc),
        }
    }

    /// How many places were known ahead, for room for what is made of them.
    pub(crate) fn len_known(&self) -> usize {
        self.known.len()
    }

    /// Adds a place, unless it is there already.
    pub(crate) fn add(&mut self, at: NearPoint, name: PointName) -> Result<(), AllocError>
        ensures { OnOk result (HasAdded self.old at name self.new) }
    {
        let place = RankedPlace {
            name,
            rank: rank(&at.point()),
            at,
        };
        if !is_among(&self.known[self.taken..], &place) {
            self.found.insert(place)?;
        }
        Ok(())
    }

    /// Whether there is no place.
    pub(crate) fn is_empty(&self) -> bool
        ensures { IsTrue result ↔ (self.now ≡ []) }
    {
        if self.taken < self.known.len() {
            return false;
        }
        self.found.is_empty()
    }

    /// Takes out the first place, if there is one.
    pub(crate) fn take_first(&mut self) -> Option<RankedPlace>
        ensures first { IfSome result (λ z. self.old ≡ ranked_entry z ∷ self.new) }
        ensures least { IfSome result (λ z. All (λ other. point_cmp (place z.at) (place other.0) ≡ Less) self.new) }
        ensures none { IsNone result → self.old ≡ [] }
        ensures left { IsNone result → self.new ≡ [] }
    {
        if self.known.len() <= self.taken {
            return first_found(&mut self.found);
        }
        let next = &self.known[self.taken];
        if is_first_before(&self.found, next) {
            return first_found(&mut self.found);
        }
        self.taken += 1;
        Some(*next)
    }
}

/// Takes out the first of some places, if there is one.
fn first_found(found: &mut BTreeSet<RankedPlace>) -> Option<RankedPlace>
    ensures removal { IfSome result
        (λ z. map ranked_entry found.old.keys ≡ ranked_entry z ∷ map ranked_entry found.new.keys) }
    ensures least { IfSome result
        (λ z. All (λ other. hpoint_cmp z.at other.0 ≡ Less) (map ranked_entry found.new.keys)) }
    ensures unchanged { IfNone result (map ranked_entry found.new.keys ≡ map ranked_entry found.old.keys) }
    ensures none { IsNone result → map ranked_entry found.old.keys ≡ [] }
{
    let Some(first) = found.pop_first() else {
        return None;
    };
    Some(first)
}

/// Whether a place, under any name, is one of some places in order, all over whole x. A place between two whole x is
/// none of them, and is not looked for: most crossings are such.
fn is_among(known: &[RankedPlace], place: &RankedPlace) -> bool
    requires in_order { AllPairs (λ a b. ranked_cmp a b ≡ Less) known.now }
    requires whole { All LiesOverWhole known.now }
    ensures among { result ≡ true → Any (λ z. ranked_cmp z place.now ≡ Equal) known.now }
    ensures apart { result ≡ false → All (λ z. ranked_cmp z place.now ≡ Equal → ⊥) known.now }
{
    if is_between(place.rank) {
        return false;
    }
    known.binary_search(place).is_ok()
}

/// Whether the first of some places, if there is one, comes before another.
fn is_first_before(found: &BTreeSet<RankedPlace>, place: &RankedPlace) -> bool
    ensures first { result ≡ is_first_before (map ranked_entry found.now.keys) place.now.at }
    ensures none { result ≡ false
        → All (λ e. hpoint_cmp e.0 place.now.at ≡ Less → ⊥) (map ranked_entry found.now.keys) }
{
    match found.first() {
        Some(first) => *first < *place,
        None => false,
    }
}
