//! Building the tiles of jobs, and keeping them.
ghost use Rattle.std.specs.Prelude.{◌≡◌, ◌<◌, ◌==◌, length, IfOk, IfSome};
ghost use Rattle.std.specs.List.{position};
ghost use Rattle.overlay_engine.specs.Steps.{Finishes, IsResult};

use crate::engine::{Engine, HeldJob, OUT_OF_MEMORY};
use crate::step::Reply;
use disk_model::disk::Disk;
use layer_book::fault::LayerFault;
use std::alloc::Global;
use tile_build::Built;
use versions::{Finish, Version, VersionFault};

impl<D: Disk> Engine<D> {
    /// Builds the tile of a job that is held, and gives the job up: the tile is kept where it is still awaited.
    pub(crate) fn finish(&mut self, alloc: Global, number: u32) -> Reply
        ensures { Finishes number self.old result self.new }
    {
        let index = match self.job_at(number) {
            Some(index) => index,
            None => return Reply::NoJob,
        };
        match finished(alloc, &self.version, &self.jobs[index]) {
            Ok(Finish::Kept(version)) => {
                self.version = version;
                let _ = self.jobs.remove(index);
                Reply::Kept
            }
            Ok(Finish::Stale) => {
                let _ = self.jobs.remove(index);
                Reply::Stale
            }
            Err(_) => Reply::Refused(OUT_OF_MEMORY),
        }
    }

    /// Where the job of a number is among those that are held.
    fn job_at(&self, number: u32) -> Option<usize>
        ensures place { result ≡ position (λ job. job.number == number) self.now.jobs.items }
        ensures within { IfSome result (λ index. index < length self.now.jobs.items) }
    {
        self.jobs.iter().position(|job| job.number == number)
    }
}

/// What becomes of the tile of a job, built of the job's input.
fn finished(alloc: Global, version: &Version, job: &HeldJob) -> Result<Finish, VersionFault>
    ensures ok { IfOk result (λ finish. IsResult version.now job.now finish) }
{
    let input = job.input.try_copy(alloc)?;
    match Built::new(alloc, input) {
        Ok(built) => version.finish_with(alloc, &job.name, &built),
        Err(_) => Err(VersionFault::Layer(LayerFault::OutOfMemory)),
    }
}
