//! An engine: a version, its store, and the tiles that are being built.
ghost use Rattle.std.specs.Prelude.{◌≡◌};

use arrange::TileInput;
use disk_model::disk::Disk;
use flush_core::flusher::Flusher;
use layer_expr::name::Name;
use root_store::shut::Shut;
use std::fmt;
use versions::Version;

/// The number under which a refusal for want of memory is answered.
pub(crate) const OUT_OF_MEMORY: u8 = 40;

/// The input of a tile that was handed out, under a number of its own.
#[derive(Debug, Drop)]
pub struct HeldJob {
    pub(crate) number: u32,
    pub(crate) name: Name,
    pub(crate) input: TileInput,
}

/// The newest version, the store that versions are written to, and the jobs that are held.
#[derive(Drop)]
pub struct Engine<D: Disk> {
    pub(crate) version: Version,
    pub(crate) flusher: Flusher<D>,
    pub(crate) jobs: Vec<HeldJob>,
    /// The number of the next job.
    pub(crate) next_job: u32,
}

impl<D: Disk> fmt::Debug for Engine<D> {
    fn fmt<W: fmt::Write>(&self, f: &mut fmt::Formatter<W>) -> fmt::Result {
        f.debug_struct("Engine")
            .field("version", &self.version)
            .field("jobs", &self.jobs)
            .field("next_job", &self.next_job)
            .finish_non_exhaustive()
    }
}

impl<D: Disk> Engine<D> {
    /// The newest version.
    pub fn version(&self) -> &Version
        ensures { result.now ≡ self.now.version }
    {
        &self.version
    }

    /// The newest version and its store; jobs that are held are given up.
    pub fn into_parts(self) -> (Version, Flusher<D>)
        ensures version { result.0 ≡ self.version }
        ensures flusher { result.1 ≡ self.flusher }
    {
        (self.version, self.flusher)
    }

    /// The disk, as the device calls have left it, shut.
    pub fn into_disk(self) -> Shut<D>
        ensures { result ≡ self.flusher.commit.disk }
    {
        self.flusher.into_disk()
    }
}
