//! A disk that passes calls on to another by a plan.
ghost use Rattle.std.specs.Prelude.{◌≡◌, ◌↔◌, ◌+◌, ◌≤◌, true, false, length, IfOk, OnOk, OnErr};
ghost use Rattle.disk_model.specs.Disk.{part, Holds, Torn, OneStepOn, Only, CountsFailure};

use crate::plan::Plan;
use disk_model::disk::Disk;
use disk_model::fault::DiskFault;

/// A disk that passes the calls of a plan on to another, of any kind. All others fail and reach nothing.
#[derive(Debug, Drop)]
pub struct PlannedDisk<D: Disk, P: Plan> {
    disk: D,
    plan: P,
    refused: u64,
}

impl<D: Disk, P: Plan> PlannedDisk<D, P> {
    ghost use Rattle.test_disks.specs.PlannedDisk.{below_of, plan_of, refused_of};

    /// A disk over another, with its plan.
    pub(crate) fn over(disk: D, plan: P) -> PlannedDisk<D, P>
        ensures below { below_of result ≡ disk }
        ensures plan { plan_of result ≡ plan }
        ensures refused { refused_of result ≡ 0 }
    {
        PlannedDisk {
            disk,
            plan,
            refused: 0,
        }
    }

    /// The disk below, as the calls have left it.
    pub fn into_disk(self) -> D
        ensures { result ≡ below_of self }
    {
        self.disk
    }

    /// Lets a call through to the disk below, or refuses and counts it.
    fn pass(&mut self) -> Result<(), DiskFault>
        ensures below { below_of self.new ≡ below_of self.old }
        ensures plan { plan_of self.new ≡ P.next (plan_of self.old) }
        ensures passed { OnOk result (P.passes (plan_of self.old) ≡ true) }
        ensures refused { OnErr result (P.passes (plan_of self.old) ≡ false) }
        ensures counts { CountsFailure result (refused_of self.old) (refused_of self.new) }
        ensures by_one { refused_of self.new ≤ refused_of self.old + 1 }
    {
        if self.plan.pass() {
            return Ok(());
        }
        self.refused = self.refused.saturating_add(1);
        Err(DiskFault::Device)
    }
}

impl<D: Disk, P: Plan> Disk for PlannedDisk<D, P> {
    ghost use Rattle.test_disks.specs.PlannedDisk.{below_of, GoesByPlan, IsCallCounted, StaysAsItWas};

    ghost is_honest = { λ d. D.Disk.is_honest d.disk };

    ghost seen = { λ d. D.Disk.seen d.disk };

    ghost may_leave = { λ d. D.Disk.may_leave d.disk };

    ghost moment = { λ d. D.Disk.moment d.disk };

    ghost left_since = { λ d. D.Disk.left_since d.disk };

    ghost faults = { λ d. D.Disk.faults d.disk + d.refused };

    ghost calls = { λ d. D.Disk.calls d.disk + d.refused };

    ghost counts_now = { λ d. D.Disk.counts_now d.disk };

    ghost only_now = { λ d. D.Disk.only_now d.disk };

    ghost seen_may_stay = { λ d. D.Disk.seen_may_stay d.disk };

    fn length(&mut self) -> Result<usize, DiskFault>
        ensures plan { GoesByPlan D.Disk P.Plan result self.old self.new }
        ensures honest { D.is_honest (below_of self.new) ↔ D.is_honest (below_of self.old) }
        ensures length { D.is_honest (below_of self.old) → IfOk result (λ n. n ≡ length (D.seen (below_of self.old))) }
        ensures kept { D.is_honest (below_of self.old) → StaysAsItWas D.Disk (below_of self.old) (below_of self.new) }
        ensures counted { D.is_honest (below_of self.old) → IsCallCounted D.Disk result self.old self.new }
    {
        self.pass()?;
        self.disk.length()
    }

    fn read(&mut self, at: usize, buf: &mut [u8]) -> Result<(), DiskFault>
        requires { D.is_honest (below_of self.old) → at + length buf.old ≤ length (D.seen (below_of self.old)) }
        ensures plan { GoesByPlan D.Disk P.Plan result self.old self.new }
        ensures honest { D.is_honest (below_of self.new) ↔ D.is_honest (below_of self.old) }
        ensures read { D.is_honest (below_of self.old)
            → OnOk result (buf.new ≡ part (D.seen (below_of self.old)) at (length buf.old)) }
        ensures kept { D.is_honest (below_of self.old) → StaysAsItWas D.Disk (below_of self.old) (below_of self.new) }
        ensures counted { D.is_honest (below_of self.old) → IsCallCounted D.Disk result self.old self.new }
    {
        self.pass()?;
        self.disk.read(at, buf)
    }

    fn write_at(&mut self, at: usize, bytes: &[u8]) -> Result<(), DiskFault>
        ensures plan { GoesByPlan D.Disk P.Plan result self.old self.new }
        ensures honest { D.is_honest (below_of self.new) ↔ D.is_honest (below_of self.old) }
        ensures written { D.is_honest (below_of self.old)
            → OnOk result (Holds (D.seen (below_of self.new)) at bytes.now) }
        ensures others { D.is_honest (below_of self.old)
            → Torn at (length bytes.now) (D.seen (below_of self.old)) (D.seen (below_of self.new)) }
        ensures crash { D.is_honest (below_of self.old)
            → OneStepOn (Torn at (length bytes.now)) (D.may_leave (below_of self.old))
            (D.may_leave (below_of self.new)) }
        ensures counted { D.is_honest (below_of self.old) → IsCallCounted D.Disk result self.old self.new }
    {
        self.pass()?;
        self.disk.write_at(at, bytes)
    }

    fn sync(&mut self) -> Result<(), DiskFault>
        ensures plan { GoesByPlan D.Disk P.Plan result self.old self.new }
        ensures honest { D.is_honest (below_of self.new) ↔ D.is_honest (below_of self.old) }
        ensures durable { D.is_honest (below_of self.old)
            → OnOk result (Only (D.seen (below_of self.old)) (D.may_leave (below_of self.new))) }
        ensures kept { D.is_honest (below_of self.old) → StaysAsItWas D.Disk (below_of self.old) (below_of self.new) }
        ensures counted { D.is_honest (below_of self.old) → IsCallCounted D.Disk result self.old self.new }
    {
        self.pass()?;
        self.disk.sync()
    }
}
