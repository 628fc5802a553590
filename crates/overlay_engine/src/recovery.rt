//! Recovery of an engine from what a crash has left.
ghost use Rattle.std.specs.Prelude.{◌≡◌, ◌↔◌, [], IfOk, MatchResult};
ghost use Rattle.commit_plan.specs.ImageHeld.{image_held};
ghost use Rattle.root_store.specs.Running.{KeepsTo};
ghost use Rattle.overlay_engine.specs.Covers.{version_of};
ghost use Rattle.overlay_engine.specs.HonestEngine.{RecoversHonestly};

use crate::engine::Engine;
use commit_plan::image::Image;
use disk_model::disk::Disk;
use flush_core::flusher::Flusher;
use root_store::commit::Commit;
use root_store::open_fault::OpenFault;
use root_store::opening::open;
use root_store::phase::Phase;
use std::alloc::Global;
use versions::Version;

impl<D: Disk> Engine<D> {
    /// The version that a crash has left on a disk, all of it durable, with just the finished tiles of the file.
    /// It may itself be stopped, or fail, and what is left recovers as well.
    ///
    /// What is promised of an honest disk (`RecoversHonestly`):
    /// - `ok`: of a file that a crash may have left of an engine, the version is the one after the first so many
    ///   batches.
    /// - `err`: such a file is refused as `Device` or `OutOfMemory` alone, and is left such a file.
    /// - `crashed`: so it is after a crash within any step of a run of an engine, with at least what was durable as
    ///   that step began.
    /// - `old`: of a file of the old format the version is what it holds, with no finished tile, and the engine
    ///   covers it from there on; it is refused only for the device or for memory, and what is left recovers as well.
    /// - `gives`: of any file the version is what it holds, or the fault is what is wrong with it.
    /// - `rests`: the store holds just the version, with its very tiles, and no commit is under way.
    /// - `writes`: nothing is written but the body, while its gate is shut.
    /// - `completed`, `completes`: where that gate was shut and a number is left, the body is the root's own under the
    ///   next number, and synced, by the last two device calls.
    /// - `untouched`: nothing at all is written of a file that is damaged or no store.
    /// - `memory`: memory is asked for only where the slots name a root.
    /// - `cause`: the device failed where it is said to be at fault, and nowhere else.
    pub fn recover(alloc: Global, disk: D, max_blocks: u32) -> Result<Engine<D>, OpenFault<D>>
        ensures recovers { D.is_honest disk → RecoversHonestly D.Disk disk result }
        ensures honest { MatchResult result (λ e. D.is_honest e.flusher.commit.disk ↔ D.is_honest disk)
            (λ refused. D.is_honest refused.disk ↔ D.is_honest disk) }
        ensures idle { IfOk result (λ e. e.flusher.commit.phase ≡ Phase.Idle) }
        ensures limit { IfOk result (λ e. KeepsTo max_blocks e.flusher.commit) }
        ensures stored { IfOk result (λ e. e.flusher.commit.root.version ≡ e.version.number) }
        ensures jobs { IfOk result (λ e. (e.jobs.items ≡ []) × (e.next_job ≡ 0)) }
    {
        // A `match` in place of `?`: the gate's wrong bodies turn one arm alone.
        match open(alloc, disk, max_blocks) {
            Ok((commit, image)) => Ok(Engine {
                version: restored(image),
                flusher: Flusher::new(commit),
                jobs: Vec::new(alloc),
                next_job: 0,
            }),
            Err(refused) => Err(refused),
        }
    }
}

/// The version of an image, all of it durable.
fn restored(image: Image) -> Version
    ensures { result ≡ version_of (image_held image) }
{
    let (number, table) = image.into_table();
    Version::restore_table(number, table)
}
