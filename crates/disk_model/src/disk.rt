//! The disk as a trait: what its calls promise where the device is honest.
ghost use Rattle.std.specs.Prelude.{◌≡◌, ◌↔◌, ◌+◌, ◌≤◌, List, ℕ, length, IfOk, OnOk};
ghost use Rattle.disk_model.specs.Disk.{part, Holds, Torn, OneStepOn, Fewer, Only, Elapses, CountsFailure, CountsCall};

use crate::fault::DiskFault;

/// A file of bytes on a device that may fail, and on a machine that may crash at any moment.
pub trait Disk {
    /// The premise of every clause: the device does what this trait says. No call changes it.
    ghost is_honest: { Self → Type 0 };

    /// The bytes that a read gives.
    ghost seen: { Self → List ℕ };

    /// What a crash at this moment may leave.
    ghost may_leave: { Self → List ℕ → Type 0 };

    /// The moment, as a number that doesn't fall.
    ghost moment: { Self → ℕ };

    /// What a crash at some moment from that one on, within a call or between two, might have left.
    ghost left_since: { Self → ℕ → List ℕ → Type 0 };

    /// How often the device has failed.
    ghost faults: { Self → ℕ };

    /// How many of the four calls were made, failed ones among them.
    ghost calls: { Self → ℕ };

    /// The number of bytes in the file.
    fn length(&mut self) -> Result<usize, DiskFault>
        ensures honest { is_honest self.new ↔ is_honest self.old }
        ensures length { is_honest self.old → IfOk result (λ n. n ≡ length (seen self.old)) }
        ensures seen { is_honest self.old → seen self.new ≡ seen self.old }
        ensures crash { is_honest self.old → Fewer (may_leave self.old) (may_leave self.new) }
        ensures time { is_honest self.old
            → Elapses (moment self.old) (moment self.new) (left_since self.old) (left_since self.new)
            (may_leave self.new) }
        ensures cause { is_honest self.old → CountsFailure result (faults self.old) (faults self.new) }
        ensures calls { is_honest self.old → CountsCall result (calls self.old) (calls self.new) };

    /// Fills a buffer with the bytes from this offset on.
    fn read(&mut self, at: usize, buf: &mut [u8]) -> Result<(), DiskFault>
        requires { is_honest self.old → at + length buf.old ≤ length (seen self.old) }
        ensures honest { is_honest self.new ↔ is_honest self.old }
        ensures read { is_honest self.old → OnOk result (buf.new ≡ part (seen self.old) at (length buf.old)) }
        ensures seen { is_honest self.old → seen self.new ≡ seen self.old }
        ensures crash { is_honest self.old → Fewer (may_leave self.old) (may_leave self.new) }
        ensures time { is_honest self.old
            → Elapses (moment self.old) (moment self.new) (left_since self.old) (left_since self.new)
            (may_leave self.new) }
        ensures cause { is_honest self.old → CountsFailure result (faults self.old) (faults self.new) }
        ensures calls { is_honest self.old → CountsCall result (calls self.old) (calls self.new) };

    /// Writes over what is there, and past the end. Until a sync a crash may leave any bytes in the
    /// range, also where the write failed.
    fn write_at(&mut self, at: usize, bytes: &[u8]) -> Result<(), DiskFault>
        ensures honest { is_honest self.new ↔ is_honest self.old }
        ensures written { is_honest self.old → OnOk result (Holds (seen self.new) at bytes.now) }
        ensures others { is_honest self.old → Torn at (length bytes.now) (seen self.old) (seen self.new) }
        ensures crash { is_honest self.old
            → OneStepOn (Torn at (length bytes.now)) (may_leave self.old) (may_leave self.new) }
        ensures time { is_honest self.old
            → Elapses (moment self.old) (moment self.new) (left_since self.old) (left_since self.new)
            (may_leave self.new) }
        ensures cause { is_honest self.old → CountsFailure result (faults self.old) (faults self.new) }
        ensures calls { is_honest self.old → CountsCall result (calls self.old) (calls self.new) };

    /// Makes what was written stay: after it a crash leaves what a read gives. A sync that failed makes nothing stay.
    fn sync(&mut self) -> Result<(), DiskFault>
        ensures honest { is_honest self.new ↔ is_honest self.old }
        ensures durable { is_honest self.old → OnOk result (Only (seen self.old) (may_leave self.new)) }
        ensures seen { is_honest self.old → seen self.new ≡ seen self.old }
        ensures crash { is_honest self.old → Fewer (may_leave self.old) (may_leave self.new) }
        ensures time { is_honest self.old
            → Elapses (moment self.old) (moment self.new) (left_since self.old) (left_since self.new)
            (may_leave self.new) }
        ensures cause { is_honest self.old → CountsFailure result (faults self.old) (faults self.new) }
        ensures calls { is_honest self.old → CountsCall result (calls self.old) (calls self.new) };

    /// This moment is one of those since an earlier one.
    ghost counts_now: { (disk : Self) (t : ℕ) (c : List ℕ) → is_honest disk → t ≤ moment disk → may_leave disk c
        → left_since disk t c };

    /// What was left since this very moment a crash now may leave.
    ghost only_now: { (disk : Self) (c : List ℕ) → is_honest disk → left_since disk (moment disk) c
        → may_leave disk c };

    /// What a read gives is among what a crash may leave.
    ghost seen_may_stay: { (disk : Self) → is_honest disk → may_leave disk (seen disk) };
}
