//! Tests of neighbours of a status.
ghost use Rattle.std.specs.Prelude.{◌≡◌, ◌≤◌, ◌++◌, [], ◌∷◌, true, false, OnOk};
ghost use Rattle.overlay_terms.specs.Plane.{Point};
ghost use Rattle.crossing_sweep.specs.Member.{segs_of};
ghost use Rattle.crossing_sweep.specs.Testing.{AreTested, AreSeamsTested, seams_at};

use crate::ahead::Ahead;
use crate::member::Member;
use crate::strip::Strip;
use exact_point::{PointName, direction_cmp, near_cross_of};
use plane_base::Seg;
use std::alloc::AllocError;

/// The places that a pass has found ahead, and the pairs of neighbours that it has tested, if they
/// are listed.
#[derive(Drop)]
pub(crate) struct Search {
    pub ahead: Ahead,
    pub listed: bool,
    pub tests: Vec<(Seg, Seg)>,
}

impl Search {
    /// Lists a pair, if pairs are listed.
    fn list(&mut self, lower: Seg, upper: Seg) -> Result<(), AllocError>
        ensures ahead { self.new.ahead ≡ self.old.ahead }
        ensures listed { self.new.listed ≡ self.old.listed }
        ensures told { OnOk result
            (self.old.listed ≡ true → self.new.tests.items ≡ self.old.tests.items ++ (lower, upper) ∷ []) }
        ensures untold { OnOk result (self.old.listed ≡ false → self.new.tests.items ≡ self.old.tests.items) }
    {
        if self.listed {
            self.tests.push((lower, upper))?;
        }
        Ok(())
    }

    /// Tests the two neighbours at a seam of a status, so many members from the lowest one on, if
    /// there are two.
    pub(crate) fn test_at(
        &mut self,
        strip: Strip,
        status: &[Member],
        seam: usize,
    ) -> Result<(), AllocError>
        ensures { OnOk result
            ((r : Point) → AreSeamsTested strip r (segs_of status.now) (seam ∷ []) self.old self.new) }
    {
        if seam == 0 {
            return Ok(());
        }
        if status.len() <= seam {
            return Ok(());
        }
        let lower = status[seam - 1].unit.seg;
        let upper = status[seam].unit.seg;
        self.list(lower, upper)?;
        test_pair(&mut self.ahead, strip, &lower, &upper)?;
        Ok(())
    }

    /// Tests the neighbours at the two seams of a node in the strip, which may be one.
    pub(crate) fn test_new(
        &mut self,
        strip: Strip,
        status: &[Member],
        low: usize,
        high: usize,
    ) -> Result<(), AllocError>
        requires in_order { low ≤ high }
        ensures { OnOk result
            ((r : Point) → AreSeamsTested strip r (segs_of status.now) (seams_at true low high) self.old self.new) }
    {
        self.test_at(strip, status, low)?;
        if low < high {
            self.test_at(strip, status, high)?;
        }
        Ok(())
    }
}

/// Tests two neighbours, the upper one over the lower one just after the node: where they cross ahead, in the closed
/// strip, that place is found, unless both end there.
pub(crate) fn test_pair(
    ahead: &mut Ahead,
    strip: Strip,
    lower: &Seg,
    upper: &Seg,
) -> Result<(), AllocError>
    ensures { OnOk result ((r : Point) → AreTested strip r lower.now upper.now ahead.old ahead.new) }
{
    // Where both end at one point, they cross nowhere else, and all ends ahead are known.
    if lower.right() == upper.right() {
        return Ok(());
    }
    // They cross after the node only where the upper one turns down to the lower one, and then nowhere before it.
    if !direction_cmp(lower, upper).is_gt() {
        return Ok(());
    }
    if let Some(crossing) = near_cross_of(lower, upper) {
        if strip.holds_closed(&crossing.point()) {
            ahead.add(crossing, PointName::Cross(*lower, *upper))?;
        }
    }
    Ok(())
}
