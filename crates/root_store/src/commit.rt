//! A store, and a commit of it, one device call a step.
ghost use Rattle.std.specs.Prelude.{◌≡◌, ◌↔◌, ℕ, ◌+◌, ◌<◌, true, length, drop, slice_get};
ghost use Rattle.std.specs.Prelude.{vec_capacity, IfSome, IfOk, OnOk, OnErr, IsErrOf, IfErr};
ghost use Rattle.disk_model.specs.Disk.{Failed, CountsCall};
ghost use Rattle.commit_plan.specs.Kept.{Kept};
ghost use Rattle.root_store.specs.Content.{Keeps};

use crate::phase::{Phase, Progress};
use crate::shut::Shut;
use crate::slots::other_gate;
use commit_plan::fault::StoreFault;
use commit_plan::live_records::LiveRecords;
use commit_plan::write::Write;
use disk_model::disk::Disk;
use std::mem;
use store_receipt::receipt::Receipt;
use store_receipt::store_name::StoreName;
use store_terms::layout::{GATE_CLOSED, GATE_OPEN};
use store_terms::root::Root;

/// A store on a disk: its live root with what that holds and where, and the commit that is under way.
#[derive(Debug, Drop)]
pub struct Commit<D: Disk> {
    pub(crate) disk: D,
    /// Which store it is: no call gives the name, so `receipt` alone says what this store holds.
    pub(crate) name: StoreName,
    /// What the file holds while no commit is under way.
    pub(crate) root: Root,
    pub(crate) live: LiveRecords,
    pub(crate) phase: Phase,
    /// What the file holds after the commit.
    pub(crate) next_root: Root,
    pub(crate) next_live: LiveRecords,
    /// The writes of the commit: records, catalog, body. Those that are made have no bytes; none is kept after Done.
    pub(crate) plan: Vec<Write>,
    /// How many of them are made.
    pub(crate) next: usize,
    /// On an honest disk: what the file holds at rest, or whence and whither the commit goes.
    pub ghost keeps: { D.is_honest disk
        → ∥ Keeps D.Disk disk root live next_root next_live (drop next plan.items) phase ∥₁ },
}

/// Lets go of the bytes of a write that is made.
#[tactic(auto, using(crate::proofs::Steps::behind_set))]
fn let_go(plan: &mut Vec<Write>, made: usize)
    requires { made < length plan.old.items }
    ensures gone { IfSome (slice_get plan.new.items made) (λ write. vec_capacity write.bytes ≡ 0) }
    // The writes after it are as they were.
    ensures rest { drop (made + 1) plan.new.items ≡ drop (made + 1) plan.old.items }
    ensures many { length plan.new.items ≡ length plan.old.items }
{
    let write = &mut plan[made];
    write.bytes.clear();
    write.bytes.shrink_to_fit();
}

impl<D: Disk> Commit<D> {
    ghost use Rattle.root_store.specs.Running.{RunsFrom, KeepsTo, Stepped, FailsByDevice, Counts, Turns, KeepsRoots, TurnsRecords, KeepsRecords, calls_left, is_busy, fault_in};
    ghost use Rattle.root_store.specs.Writing.{WritesOnly, writes_left, write_in, left_after};

    /// Whether a commit is under way: from the `begin` that was taken to the step that answers `Done` or fails.
    pub fn busy(&self) -> bool
        ensures { result ≡ is_busy self.now.phase }
    {
        !matches!(self.phase, Phase::Idle | Phase::Failed)
    }

    /// The number of the version that is stored: that of the live root.
    pub fn version(&self) -> u64
        ensures { result ≡ self.now.root.version }
    {
        self.root.version
    }

    /// That this store holds the version of its live root: what is written under its name alone.
    pub fn receipt(&self) -> Receipt
        ensures store { result.store ≡ self.now.name }
        ensures number { result.number ≡ self.now.root.version }
    {
        Receipt::of(&self.name, self.root.version)
    }

    /// The disk, as the calls have left it, shut.
    pub fn into_disk(self) -> Shut<D>
        ensures { result ≡ self.disk }
    {
        Shut { disk: self.disk }
    }

    /// Makes one device call; none where no commit is under way.
    pub fn step(&mut self) -> Result<Progress, StoreFault>
        // Where a commit from x to y is under way, a crash at any moment of the call leaves x or y.
        ensures moves { (x y : Kept) → RunsFrom D.Disk self.old x y → Stepped D.Disk self.old self.new result x y }
        ensures honest { D.is_honest self.new.disk ↔ D.is_honest self.old.disk }
        // It stays the store that it is.
        ensures name { self.new.name ≡ self.old.name }
        // It writes what its phase is named for, and no other byte: the other slot's gate byte, or the first of the
        // writes that are left. These stay as they are, but for that one.
        ensures wrote { D.is_honest self.old.disk
            → WritesOnly D.Disk (write_in self.old.phase self.old.root (writes_left self.old)) self.old.disk
            self.new.disk result }
        ensures left { OnOk result (writes_left self.new ≡ left_after self.old.phase (writes_left self.old)) }
        // One device call fewer is left, until Done.
        ensures counted { IfOk result (λ p. Counts p (calls_left self.old) (calls_left self.new)) }
        // Done n: n is the number of the root that the commit leads to, and that root is live. Any other answer leaves
        // the live root and the next one.
        ensures roots { IfOk result (λ p. Turns p self.old self.new) }
        ensures same_roots { OnErr result (KeepsRoots self.old self.new) }
        // So with what the two hold.
        ensures records { IfOk result (λ p. TurnsRecords p self.old self.new) }
        ensures same_records { OnErr result (KeepsRecords self.old self.new) }
        ensures idle { self.old.phase ≡ Phase.Idle → (result ≡ Ok Progress.Idle) × (self.new ≡ self.old) }
        ensures stuck { self.old.phase ≡ Phase.Failed → (result ≡ Err StoreFault.Failed) × (self.new ≡ self.old) }
        // The blocks that the file may have stay as many.
        ensures blocks { (limit : ℕ) → KeepsTo limit self.old → KeepsTo limit self.new }
        ensures failed { OnErr result (self.new.phase ≡ Phase.Failed) }
        ensures errors { IfErr result (λ fault. fault ≡ fault_in self.old.phase) }
        ensures cause { D.is_honest self.old.disk → IsErrOf result StoreFault.Device
            → Failed (D.faults self.old.disk) (D.faults self.new.disk) }
        // One device call is made where a commit is under way; where none is, nothing changes.
        ensures calls { D.is_honest self.old.disk → is_busy self.old.phase ≡ true
            → CountsCall result (D.calls self.old.disk) (D.calls self.new.disk) }
        // It fails where a device call failed, now or before, and only there.
        ensures by_device { D.is_honest self.old.disk → FailsByDevice D.Disk self.old self.new }
    {
        match self.phase {
            Phase::Idle => Ok(Progress::Idle),
            Phase::Failed => Err(StoreFault::Failed),
            Phase::Close => {
                self.phase = Phase::Failed;
                self.disk.write_at(other_gate(self.root), &[GATE_CLOSED])?;
                self.phase = Phase::Settle;
                Ok(Progress::Going)
            }
            Phase::Settle => {
                self.phase = Phase::Failed;
                self.disk.sync()?;
                self.phase = Phase::Put;
                Ok(Progress::Going)
            }
            Phase::Put => {
                self.phase = Phase::Failed;
                if self.next < self.plan.len() {
                    let write = &self.plan[self.next];
                    self.disk.write_at(write.at, &write.bytes)?;
                    let_go(&mut self.plan, self.next);
                    self.next += 1;
                    self.phase = Phase::Put;
                } else {
                    self.disk.sync()?;
                    self.phase = Phase::Open;
                }
                Ok(Progress::Going)
            }
            Phase::Open => {
                self.phase = Phase::Failed;
                self.disk.write_at(other_gate(self.root), &[GATE_OPEN])?;
                self.phase = Phase::Finish;
                Ok(Progress::Going) // not Done: until the next sync a crash may leave the gate as it was
            }
            Phase::Finish => {
                self.phase = Phase::Failed;
                self.disk.sync()?;
                self.root = self.next_root;
                mem::swap(&mut self.live, &mut self.next_live);
                self.next_live.let_go();
                self.plan.clear();
                self.phase = Phase::Idle;
                Ok(Progress::Done(self.root.version))
            }
        }
    }
}
