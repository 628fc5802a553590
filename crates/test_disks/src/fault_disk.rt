//! A disk of which one call fails.
ghost use Rattle.std.specs.Prelude.{◌≡◌, Some};

use crate::plan::Plan;
use crate::planned_disk::PlannedDisk;
use disk_model::disk::Disk;

/// A disk that passes each call on to another, of any kind, but one, which fails and reaches nothing.
pub type FaultDisk<D> = PlannedDisk<D, FaultPlan>;

/// How many calls come before the one that fails; none where it is over.
#[derive(Debug, Drop)]
pub struct FaultPlan {
    before: Option<u64>,
}

impl<D: Disk> PlannedDisk<D, FaultPlan> {
    ghost use Rattle.test_disks.specs.PlannedDisk.{below_of, refused_of};
    ghost use Rattle.test_disks.specs.FaultDisk.{before_of};

    /// A disk that passes this many calls on, fails the next, and passes all others on.
    pub fn new(disk: D, before: u64) -> FaultDisk<D>
        ensures below { below_of result ≡ disk }
        ensures before { before_of result ≡ Some before }
        ensures refused { refused_of result ≡ 0 }
    {
        let before = Some(before);
        PlannedDisk::over(disk, FaultPlan { before })
    }
}

impl Plan for FaultPlan {
    ghost use Rattle.test_disks.specs.FaultDisk.{passes, next};

    ghost passes = { λ plan. passes plan.before };

    ghost next = { λ plan. next plan };

    fn pass(&mut self) -> bool {
        match self.before {
            Some(0) => {
                self.before = None;
                return false;
            }
            Some(count) => self.before = Some(count - 1),
            None => {}
        }
        true
    }
}
