//! New engines.
ghost use Rattle.std.specs.Prelude.{◌≡◌, ◌↔◌, [], IfOk, MatchResult};
ghost use Rattle.overlay_terms.specs.Histories.{empty_version};
ghost use Rattle.root_store.specs.Running.{KeepsTo};
ghost use Rattle.overlay_engine.specs.HonestEngine.{MakesHonestly};

use crate::engine::Engine;
use commit_plan::fault::StoreFault;
use disk_model::disk::Disk;
use flush_core::flusher::Flusher;
use root_store::creating::create;
use root_store::open_fault::OpenFault;
use root_store::phase::Phase;
use std::alloc::Global;
use versions::Version;

impl<D: Disk> Engine<D> {
    /// The version before any command, over a new store that is made of an empty file. The file may have at most so
    /// many blocks.
    ///
    /// What is promised of an honest disk (`MakesHonestly`):
    /// - `covers`: the engine covers no batch.
    /// - `rests`: the store holds just the version, and no commit is under way.
    /// - `file`: three blocks that are zero but for the bodies, the catalog and the first gate, which alone is open.
    /// - `phases`: what is written first has both gates shut, and is synced before the first gate opens.
    /// - `answer`: a file is refused that is not empty, or has no block for the catalog.
    /// - `unchanged`: a file that is refused stays as it is.
    /// - `cause`: the device failed where it is said to be at fault.
    /// - `calls`: five device calls are made; of a file that is refused, or without memory, the length alone is asked
    ///   for.
    pub fn create(alloc: Global, disk: D, max_blocks: u32) -> Result<Engine<D>, OpenFault<D>>
        ensures makes { D.is_honest disk → MakesHonestly D.Disk max_blocks disk result }
        ensures honest { MatchResult result (λ e. D.is_honest e.flusher.commit.disk ↔ D.is_honest disk)
            (λ refused. D.is_honest refused.disk ↔ D.is_honest disk) }
        ensures idle { IfOk result (λ e. e.flusher.commit.phase ≡ Phase.Idle) }
        ensures version { IfOk result (λ e. e.version ≡ empty_version) }
        ensures jobs { IfOk result (λ e. (e.jobs.items ≡ []) × (e.next_job ≡ 0)) }
        ensures limit { IfOk result (λ e. KeepsTo max_blocks e.flusher.commit) }
    {
        match create(alloc, disk, max_blocks) {
            Ok(commit) => Ok(Engine {
                version: Version::empty(alloc),
                flusher: Flusher::new(commit),
                jobs: Vec::new(alloc),
                next_job: 0,
            }),
            Err(refused) => Err(refused),
        }
    }
}
