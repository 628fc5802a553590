//! The right ends of the pieces over an x, in the order of x.
ghost use Rattle.std.specs.Prelude.{◌≡◌, ℕ, ◌-◌, ◌≤◌, [], length, take, false, true, None, IfSome, OnOk, OnErr, All};
ghost use Rattle.std.specs.List.{insert};
ghost use Rattle.exact_point.specs.Place.{place};
ghost use Rattle.sweep_line.specs.RightEnds.{AreLeftmostLast, IsLast, lies_right};

use exact_point::{HPoint, x_cmp};
use std::alloc::{AllocError, Global};
use std::marker::Model;

/// Right ends, the leftmost last.
#[derive(Drop)]
pub(crate) struct RightEnds {
    points: Vec<HPoint>,
}

impl Model for RightEnds {
    ghost use Rattle.std.specs.Prelude.{List};
    ghost use Rattle.exact_point.specs.declared.point.HPoint.{HPoint};
    ghost use Rattle.sweep_line.specs.RightEnds.{AreLeftmostLast};

    ghost Value = { List HPoint };

    ghost view = { λ e. e.points.items };

    ghost invariant = { λ e. AreLeftmostLast e.points.items };
}

impl RightEnds {
    /// No right end.
    pub(crate) fn new(alloc: Global) -> RightEnds
        ensures { result ≡ [] }
    {
        RightEnds {
            points: Vec::new(alloc),
        }
    }

    /// The leftmost, unless all lie right of a point.
    pub(crate) fn next_up_to(&self, at: &HPoint) -> Option<HPoint>
        ensures last { IfSome result (λ end. IsLast self.now end) }
        ensures up_to { IfSome result (λ end. lies_right (place at.now) end ≡ false) }
        ensures none { result ≡ None → All (λ end. lies_right (place at.now) end ≡ true) self.now }
    {
        let end = self.next()?;
        if is_left(at, &end) {
            return None;
        }
        Some(end)
    }

    /// The leftmost.
    fn next(&self) -> Option<HPoint>
        ensures some { IfSome result (λ end. IsLast self.now end) }
        ensures none { result ≡ None → self.now ≡ [] }
        ensures ordered { AreLeftmostLast self.now }
    {
        match self.points.last() {
            Some(end) => Some(*end),
            None => None,
        }
    }

    /// Takes out the leftmost.
    pub(crate) fn drop_next(&mut self)
        ensures { self.new ≡ take (length self.old - 1) self.old }
    {
        let _ = self.points.pop();
    }

    /// Adds a right end at its place.
    pub(crate) fn add(&mut self, end: HPoint) -> Result<(), AllocError>
        ensures ok { OnOk result ((k : ℕ) × (self.new ≡ insert self.old k end)) }
        ensures err { OnErr result (self.new ≡ self.old) }
    {
        let place = self.points.partition_point(|other| is_left(&end, other));
        self.points.insert(place, end)?;
        Ok(())
    }
}

/// Whether one point lies left of another, by x alone.
pub(crate) fn is_left(p: &HPoint, q: &HPoint) -> bool
    ensures { result ≡ lies_right (place p.now) q.now }
{
    x_cmp(p, q).is_lt()
}
