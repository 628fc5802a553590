//! A disk that passes so many calls on, and then fails each.
ghost use Rattle.std.specs.Prelude.{◌≡◌};

use crate::plan::Plan;
use crate::planned_disk::PlannedDisk;
use disk_model::disk::Disk;

/// A disk that passes so many calls on to another, of any kind. From then on each fails and reaches nothing.
pub type StopDisk<D> = PlannedDisk<D, StopPlan>;

/// How many calls are passed on: none after them.
#[derive(Debug, Drop)]
pub struct StopPlan {
    left: u64,
}

impl<D: Disk> PlannedDisk<D, StopPlan> {
    ghost use Rattle.test_disks.specs.PlannedDisk.{below_of, refused_of};
    ghost use Rattle.test_disks.specs.StopDisk.{left_of};

    /// A disk that passes this many calls on.
    pub fn new(disk: D, calls: u64) -> StopDisk<D>
        ensures below { below_of result ≡ disk }
        ensures left { left_of result ≡ calls }
        ensures refused { refused_of result ≡ 0 }
    {
        PlannedDisk::over(disk, StopPlan { left: calls })
    }
}

impl Plan for StopPlan {
    ghost use Rattle.test_disks.specs.StopDisk.{passes, next};

    ghost passes = { λ plan. passes plan.left };

    ghost next = { λ plan. next plan };

    fn pass(&mut self) -> bool {
        if self.left == 0 {
            return false;
        }
        self.left -= 1;
        true
    }
}
