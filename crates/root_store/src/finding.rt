//! The root of a file.
ghost use Rattle.std.specs.Prelude.{◌≡◌, ◌≢◌, ◌==◌, ◌&&◌, ◌*◌, ◌^◌, ◌<◌, ◌≤◌, ℕ};
ghost use Rattle.std.specs.Prelude.{List, length, not, IfSome, IfOk, IfErr};
ghost use Rattle.overlay_terms.specs.Commands.{version_max};
ghost use Rattle.store_terms.specs.Places.{block_size};
ghost use Rattle.store_terms.specs.StandsFor.{gate, slot, newer_root, root_of, is_foreign, open_gate};
ghost use Rattle.root_reading.specs.Looking.{Gives, OnlyLooks};
ghost use Rattle.root_store.specs.Finding.{IsSlot, has_shut_gate};

use disk_model::disk::Disk;
use extent_map::BLOCK;
use record_reading::root_body::read_body;
use root_reading::load_fault::LoadFault;
use store_terms::damage::Damage;
use store_terms::layout::{BODY, BODY_READ, GATE_OPEN, NUMBER_MAX, SLOTS_END};
use store_terms::root::{Body, Root, format_of};

/// What is in a slot: its gate, and its body whatever the gate.
#[derive(Clone, Copy)]
pub(crate) struct RootSlot {
    pub(crate) gate: u8,
    pub(crate) body: Body,
}

impl RootSlot {
    fn is_open(&self) -> bool
        ensures { result ≡ (self.now.gate == open_gate) }
    {
        self.gate == GATE_OPEN
    }

    /// Whether the slot is open and not ours: then the file is no store (error 32).
    fn is_foreign(&self) -> bool
        ensures { (file : List ℕ) (k : ℕ) → IsSlot file k self.now → result ≡ is_foreign file k }
    {
        self.is_open() && !self.body.is_ours
    }

    /// The root in the slot with this number, if its gate is open; another format or wrong numbers are refused (error
    /// 33, codes 1 and 2).
    fn root(&self, number: u64) -> Result<Option<Root>, Damage>
        ensures gives { (file : List ℕ) → IsSlot file number self.now → result ≡ slot file number }
        ensures numbered { IfOk result (λ o. IfSome o (λ r. r.version ≤ version_max)) }
    {
        if !self.is_open() {
            return Ok(None);
        }
        let root = self.body.root;
        if self.body.format != format_of(root) {
            return Err(Damage::Format);
        }
        if root.sequence > NUMBER_MAX || root.version > NUMBER_MAX || root.sequence % 2 != number {
            return Err(Damage::Numbers);
        }
        Ok(Some(root))
    }
}

/// The root with the greater sequence, or the only one there is; without one the file is no store (error 32).
fn newer(first: Option<Root>, second: Option<Root>) -> Result<Root, Damage>
    ensures gives { result ≡ newer_root first second }
    ensures numbered { IfSome first (λ r. r.version ≤ version_max) → IfSome second (λ r. r.version ≤ version_max)
        → IfOk result (λ r. r.version ≤ version_max) }
{
    match (first, second) {
        (None, None) => Err(Damage::NotAStore),
        (Some(a), None) => Ok(a),
        (None, Some(b)) => Ok(b),
        (Some(a), Some(b)) => {
            if b.sequence < a.sequence {
                Ok(a)
            } else {
                Ok(b)
            }
        }
    }
}

/// The root that a file's two slots name, the newer one where both gates are open.
fn root_in(first: &RootSlot, second: &RootSlot) -> Result<Root, Damage>
    ensures gives { (file : List ℕ) → block_size * 2 ≤ length file → IsSlot file 0 first.now → IsSlot file 1 second.now
        → result ≡ root_of file }
    ensures numbered { IfOk result (λ r. r.version ≤ version_max) }
{
    if first.is_foreign() || second.is_foreign() {
        return Err(Damage::NotAStore);
    }
    let older = first.root(0)?;
    let other = second.root(1)?;
    newer(older, other)
}

/// What is in the slot with this number.
fn read_slot<D: Disk>(disk: &mut D, number: usize) -> Result<RootSlot, LoadFault>
    requires small { number ≤ 1 }
    requires long { D.is_honest disk.old → block_size * 2 ≤ length (D.seen disk.old) }
    ensures looks { OnlyLooks D.Disk result disk.old disk.new }
    ensures read { D.is_honest disk.old → IfOk result (IsSlot (D.seen disk.old) number) }
    ensures err { IfErr result (λ e. e ≡ LoadFault.Device) }
{
    let mut bytes = [0; BODY + BODY_READ];
    disk.read(number * BLOCK, &mut bytes)?;
    Ok(RootSlot {
        gate: bytes[0],
        body: read_body(&bytes[BODY..]),
    })
}

/// The root of the file, whether one of its gates is shut, and how many bytes the file has.
pub fn find_root<D: Disk>(disk: &mut D) -> Result<(Root, bool, usize), LoadFault>
    ensures looks { OnlyLooks D.Disk result disk.old disk.new }
    ensures gives { D.is_honest disk.old → Gives (λ x. x.0) result (root_of (D.seen disk.old)) }
    ensures numbered { IfOk result (λ x. x.0.version ≤ version_max) }
    ensures small { D.is_honest disk.old → IfOk result (λ x. length (D.seen disk.old) < 2 ^ 64) }
    ensures shut_gate { D.is_honest disk.old → IfOk result (λ x. x.1 ≡ has_shut_gate (D.seen disk.old)) }
    ensures size { D.is_honest disk.old → IfOk result (λ x. x.2 ≡ length (D.seen disk.old)) }
    ensures memory { IfErr result (λ e. e ≢ LoadFault.OutOfMemory) }
{
    let size = disk.length()?;
    if size < SLOTS_END {
        return Err(LoadFault::Damaged(Damage::NotAStore));
    }
    let first = read_slot(disk, 0)?;
    let second = read_slot(disk, 1)?;
    let root = root_in(&first, &second)?;
    Ok((root, !(first.is_open() && second.is_open()), size))
}
