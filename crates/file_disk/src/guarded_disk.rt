//! A disk that gives up once a write or a sync has failed, and refuses each write where it is read alone.
ghost use Rattle.std.specs.Prelude.{◌≡◌, ◌⊎◌, ◌↔◌, ◌+◌, ◌≤◌, false, true, length, IfErr, IfOk, IsErr, OnErr, OnOk};
ghost use Rattle.disk_model.specs.Disk.{part, Holds, Torn, OneStepOn, Only, CountsFailure};

use disk_model::disk::Disk;
use disk_model::fault::DiskFault;

/// A disk that passes calls on to another, of any kind. Once a write or a sync has failed each call fails and reaches
/// nothing: after a sync that failed, what was written may be gone although the next sync succeeds. Of a disk that is
/// read alone each write fails and reaches nothing.
#[derive(Debug, Drop)]
pub struct GuardedDisk<D: Disk> {
    disk: D,
    access: Access,
    refused: u64,
}

/// What may be done with a disk.
#[derive(Clone, Copy, Debug)]
pub enum Access {
    /// It is read and written.
    Whole,
    /// It is read alone.
    Reading,
    /// Nothing, until it is opened anew.
    Failed,
}

impl<D: Disk> GuardedDisk<D> {
    ghost use Rattle.file_disk.specs.declared.guarded_disk.Access.TheVariants as access;
    ghost use Rattle.file_disk.specs.GuardedDisk.{below_of, refused_of, HasFailed, IsReadAlone};

    /// A disk over another, no call of which has failed.
    pub(crate) fn over(disk: D, access: Access) -> GuardedDisk<D>
        ensures below { below_of result ≡ disk }
        ensures access { result.access ≡ access }
    {
        GuardedDisk {
            disk,
            access,
            refused: 0,
        }
    }

    /// Lets a call through to the disk below, or refuses and counts it.
    fn pass(&mut self, is_write: bool) -> Result<(), DiskFault>
        ensures below { below_of self.new ≡ below_of self.old }
        ensures access { self.new.access ≡ self.old.access }
        ensures failed { HasFailed self.old → IsErr result }
        ensures whole { OnErr result (HasFailed self.old ⊎ IsReadAlone self.old) }
        ensures read { is_write ≡ false → OnErr result (HasFailed self.old) }
        ensures alone { is_write ≡ true → IsReadAlone self.old → IsErr result }
        ensures counts { CountsFailure result (refused_of self.old) (refused_of self.new) }
        ensures by_one { refused_of self.new ≤ refused_of self.old + 1 }
    {
        match self.access {
            Access::Whole => return Ok(()),
            Access::Reading if !is_write => return Ok(()),
            Access::Reading | Access::Failed => {}
        }
        self.refused = self.refused.saturating_add(1);
        Err(DiskFault::Device)
    }

    /// The answer of a write or a sync. Where it failed, each later call fails.
    fn after(&mut self, answer: Result<(), DiskFault>) -> Result<(), DiskFault>
        ensures same { result ≡ answer }
        ensures below { below_of self.new ≡ below_of self.old }
        ensures refused { refused_of self.new ≡ refused_of self.old }
        ensures fails { OnErr result (HasFailed self.new) }
        ensures goes_on { OnOk result (self.new.access ≡ self.old.access) }
    {
        if answer.is_err() {
            self.access = Access::Failed;
        }
        answer
    }
}

impl<D: Disk> Disk for GuardedDisk<D> {
    ghost use Rattle.file_disk.specs.GuardedDisk.{below_of, GivesUp, HasFailed, IsCallCounted, IsReadAlone};
    ghost use Rattle.file_disk.specs.GuardedDisk.{RefusesWrite, StaysAsItWas, StaysReadAlone};

    ghost is_honest = { λ d. D.Disk.is_honest d.disk };

    ghost seen = { λ d. D.Disk.seen d.disk };

    ghost may_leave = { λ d. D.Disk.may_leave d.disk };

    ghost moment = { λ d. D.Disk.moment d.disk };

    ghost left_since = { λ d. D.Disk.left_since d.disk };

    ghost faults = { λ d. D.Disk.faults d.disk + d.refused };

    ghost calls = { λ d. D.Disk.calls d.disk + d.refused };

    ghost counts_now = { λ d. D.Disk.counts_now d.disk };

    ghost only_now = { λ d. D.Disk.only_now d.disk };

    ghost seen_may_stay = { λ d. D.Disk.seen_may_stay d.disk };

    fn length(&mut self) -> Result<usize, DiskFault>
        ensures gives_up { GivesUp result self.old self.new }
        ensures alone { StaysReadAlone self.old self.new }
        ensures honest { D.is_honest (below_of self.new) ↔ D.is_honest (below_of self.old) }
        ensures length { D.is_honest (below_of self.old) → IfOk result (λ n. n ≡ length (D.seen (below_of self.old))) }
        ensures kept { D.is_honest (below_of self.old) → StaysAsItWas D.Disk (below_of self.old) (below_of self.new) }
        ensures counted { D.is_honest (below_of self.old) → IsCallCounted D.Disk result self.old self.new }
    {
        self.pass(false)?;
        self.disk.length()
    }

    fn read(&mut self, at: usize, buf: &mut [u8]) -> Result<(), DiskFault>
        requires { D.is_honest (below_of self.old) → at + length buf.old ≤ length (D.seen (below_of self.old)) }
        ensures gives_up { GivesUp result self.old self.new }
        ensures alone { StaysReadAlone self.old self.new }
        ensures honest { D.is_honest (below_of self.new) ↔ D.is_honest (below_of self.old) }
        ensures read { D.is_honest (below_of self.old)
            → OnOk result (buf.new ≡ part (D.seen (below_of self.old)) at (length buf.old)) }
        ensures kept { D.is_honest (below_of self.old) → StaysAsItWas D.Disk (below_of self.old) (below_of self.new) }
        ensures counted { D.is_honest (below_of self.old) → IsCallCounted D.Disk result self.old self.new }
    {
        self.pass(false)?;
        self.disk.read(at, buf)
    }

    fn write_at(&mut self, at: usize, bytes: &[u8]) -> Result<(), DiskFault>
        ensures gives_up { GivesUp result self.old self.new }
        ensures alone { RefusesWrite result self.old self.new }
        ensures fails { OnErr result (HasFailed self.new ⊎ IsReadAlone self.new) }
        ensures honest { D.is_honest (below_of self.new) ↔ D.is_honest (below_of self.old) }
        ensures written { D.is_honest (below_of self.old)
            → OnOk result (Holds (D.seen (below_of self.new)) at bytes.now) }
        ensures others { D.is_honest (below_of self.old)
            → Torn at (length bytes.now) (D.seen (below_of self.old)) (D.seen (below_of self.new)) }
        ensures crash { D.is_honest (below_of self.old)
            → OneStepOn (Torn at (length bytes.now)) (D.may_leave (below_of self.old))
            (D.may_leave (below_of self.new)) }
        ensures counted { D.is_honest (below_of self.old) → IsCallCounted D.Disk result self.old self.new }
    {
        self.pass(true)?;
        let answer = self.disk.write_at(at, bytes);
        self.after(answer)
    }

    fn sync(&mut self) -> Result<(), DiskFault>
        ensures gives_up { GivesUp result self.old self.new }
        ensures alone { StaysReadAlone self.old self.new }
        ensures fails { OnErr result (HasFailed self.new) }
        ensures honest { D.is_honest (below_of self.new) ↔ D.is_honest (below_of self.old) }
        ensures durable { D.is_honest (below_of self.old)
            → OnOk result (Only (D.seen (below_of self.old)) (D.may_leave (below_of self.new))) }
        ensures kept { D.is_honest (below_of self.old) → StaysAsItWas D.Disk (below_of self.old) (below_of self.new) }
        ensures counted { D.is_honest (below_of self.old) → IsCallCounted D.Disk result self.old self.new }
    {
        self.pass(false)?;
        let answer = self.disk.sync();
        self.after(answer)
    }
}
