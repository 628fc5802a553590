//! The pieces over an x of the column, from the lowest to the highest.
ghost use Rattle.std.specs.Prelude.{◌≡◌, ℕ, suc, ◌<◌, ◌≤◌, [], length, filter, get_or, true, false, OnOk, ◌*ℤ◌};
ghost use Rattle.std.specs.Ordering.{int_eq};
ghost use Rattle.std.specs.List.{insert};
ghost use Rattle.std.specs.List.Sorted.{IsPartitionedBy, IsPartitionPoint};
ghost use Rattle.exact_point.specs.Place.{place};
ghost use Rattle.sweep_line.specs.Status.{HasLostOne, goes_on, is_passed};

use crate::right_ends::{RightEnds, is_left};
use exact_point::side::side;
use exact_point::{HPoint, direction_cmp, x_cmp};
use plane_base::Seg;
use std::alloc::{AllocError, Global};
use std::cmp::Ordering;
use std::marker::Model;

/// A piece of the status: its right end, the segment that it lies on, and a bit for each base
/// layer that holds just over it.
#[derive(Clone, Copy)]
pub struct StatusEntry {
    pub to: HPoint,
    pub support: Seg,
    pub over: u32,
}

/// Pieces that are not vertical, from the lowest to the highest just right of an x.
#[derive(Drop)]
pub struct Status {
    entries: Vec<StatusEntry>,
    ends: RightEnds,
}

impl Model for Status {
    ghost use Rattle.std.specs.Prelude.{List};
    ghost use Rattle.sweep_line.specs.Status.{HasEndsFor};
    ghost use Rattle.sweep_line.specs.declared.status.StatusEntry.{StatusEntry};

    ghost Value = { List StatusEntry };

    ghost view = { λ s. s.entries.items };

    ghost invariant = { λ s. HasEndsFor s.entries.items s.ends };
}

impl Status {
    /// No piece.
    pub fn new(alloc: Global) -> Status
        ensures { result ≡ [] }
    {
        Status {
            entries: Vec::new(alloc),
            ends: RightEnds::new(alloc),
        }
    }

    /// Takes out the pieces that do not go on to the right of a point.
    pub fn leave(&mut self, at: &HPoint)
        ensures { self.new ≡ filter (goes_on (place at.now)) self.old }
    {
        while self.take_out_next(at) {}
    }

    /// Takes out a piece that does not go on to the right of a point, found by its right end, and
    /// says that there may be more. Where the order of the pieces does not lead to it, all that do
    /// not go on are taken out at once.
    fn take_out_next(&mut self, at: &HPoint) -> bool
        ensures more { result ≡ true
            → filter (goes_on (place at.now)) self.new ≡ filter (goes_on (place at.now)) self.old }
        ensures fewer { result ≡ true → length self.new < length self.old }
        ensures done { result ≡ false → self.new ≡ filter (goes_on (place at.now)) self.old }
    {
        let Some(end) = self.ends.next_up_to(at) else {
            return false;
        };
        if take_out_at(&mut self.entries, &end) {
            self.ends.drop_next();
            return true;
        }
        self.entries.retain(|entry| is_left(at, &entry.to));
        false
    }

    /// How many pieces, from the lowest on, a piece of the segment that begins at the point has
    /// under it: those that pass under the point, or through it and turn less to the left.
    pub(crate) fn place_of(&self, at: &HPoint, support: &Seg) -> usize
        ensures bound { result ≤ length self.now }
        ensures partitioned { IsPartitionedBy (is_passed (place at.now) support.now) self.now
            → IsPartitionPoint (λ e. is_passed (place at.now) support.now e ≡ true)
            (λ e. is_passed (place at.now) support.now e ≡ false) self.now result }
    {
        self.entries
            .partition_point(|entry| stands_under(entry, at, support))
    }

    /// What holds just under a place of the status: just over the piece below it, and nothing under
    /// the lowest.
    pub fn under(&self, place: usize) -> u32
        requires { place ≤ length self.now }
        ensures lowest { place ≡ 0 → result ≡ 0 }
        ensures above { (k : ℕ) (d : StatusEntry) → place ≡ suc k → result ≡ (get_or self.now k d).over }
    {
        if place == 0 {
            0
        } else {
            self.entries[place - 1].over
        }
    }

    /// Puts a piece at a place of the status.
    pub fn enter(&mut self, place: usize, entry: StatusEntry) -> Result<(), AllocError>
        requires { place ≤ length self.old }
        ensures { OnOk result (self.new ≡ insert self.old place entry) }
    {
        self.ends.add(entry.to)?;
        self.entries.insert(place, entry)?;
        Ok(())
    }
}

/// Takes out the lowest piece that does not pass under a point, if it ends over the x of the point.
fn take_out_at(entries: &mut Vec<StatusEntry>, end: &HPoint) -> bool
    ensures yes { result ≡ true → HasLostOne (place end.now) entries.old.items entries.new.items }
    ensures no { result ≡ false → entries.new.items ≡ entries.old.items }
{
    let place = entries.partition_point(|entry| side(&entry.support, end).is_gt());
    if place < entries.len() && ends_over(&entries[place], end) {
        let _ = entries.remove(place);
        return true;
    }
    false
}

/// Whether a piece ends over the x of a point.
fn ends_over(entry: &StatusEntry, at: &HPoint) -> bool
    ensures { result ≡ int_eq ((place entry.now.to).x *ℤ (place at.now).w)
        ((place at.now).x *ℤ (place entry.now.to).w) }
{
    x_cmp(&entry.to, at).is_eq()
}

/// Whether a piece of the status is under one of the segment that begins at the point.
fn stands_under(entry: &StatusEntry, at: &HPoint, support: &Seg) -> bool
    ensures { result ≡ is_passed (place at.now) support.now entry.now }
{
    match side(&entry.support, at) {
        Ordering::Greater => true,
        Ordering::Equal => direction_cmp(&entry.support, support).is_lt(),
        Ordering::Less => false,
    }
}
