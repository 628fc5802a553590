//! Stores in memory for the tests: what each holds is hidden from the proofs, so that a
//! function that owns one is proved soon.
ghost use Rattle.std.specs.Prelude.{ℕ};

use commit_plan::fault::StoreFault;
use commit_plan::image::Image;
use disk_model::mem_disk::MemDisk;
use root_store::commit::Commit;
use root_store::creating::create;
use root_store::opening::open;
use root_store::phase::Progress;
use root_store::shut::Key;
use std::alloc::Global;
use std::marker::Model;
use std::process::Abort;

/// The store of a disk, of which a contract sees nothing.
pub struct Store {
    commit: Commit<MemDisk>,
    key: Key<MemDisk>,
}

impl Model for Store {
    ghost Value = { ℕ };

    ghost view = { λ _. 0 };
}

// Written out: of a derived drop, each function that owns one proves again what becomes of every part.
impl Drop for Store {
    fn drop(self) {
        let Store { commit, key } = self;
        drop(commit);
        drop(key);
    }
}

/// The number of an image, and how many layers and tiles it has.
pub type Counts = (u64, usize, usize);

fn counts(rt: &impl Abort, alloc: Global, image: Image) -> Counts {
    let (number, layers, tiles) = image.into_parts(alloc).expect(rt, "memory");
    (number, layers.len(), tiles.len())
}

impl Store {
    /// A new store on a disk, or the disk and the number of the fault.
    pub fn created(alloc: Global, disk: MemDisk, max_blocks: u32) -> Result<Store, (MemDisk, u8)> {
        let key = Key::of(&disk);
        match create(alloc, disk, max_blocks) {
            Ok(commit) => Ok(Store { commit, key }),
            Err(refused) => {
                let code = refused.fault.code();
                Err((refused.disk, code))
            }
        }
    }

    /// Begins to commit an image, where no commit is under way.
    pub fn begin(
        &mut self,
        rt: &impl Abort,
        alloc: Global,
        image: Image,
    ) -> Result<(), StoreFault> {
        assert!(rt; !self.commit.busy());
        self.commit.begin(alloc, image)
    }

    /// Whether a commit is under way.
    pub fn busy(&self) -> bool {
        self.commit.busy()
    }

    /// Steps until a commit is done, at most this often, and counts them.
    pub fn steps_to_done(&mut self, most: usize) -> Option<usize> {
        for step in 0..most {
            match self.commit.step() {
                Ok(Progress::Done(_)) => return Some(step + 1),
                Ok(_) => {}
                Err(_) => return None,
            }
        }
        None
    }

    /// The disk, as the device calls have left it.
    pub fn into_disk(self) -> MemDisk {
        let Store { commit, key } = self;
        key.open(commit.into_disk())
    }
}

/// A disk that was opened, and what it is opened as, or the fault.
pub fn opened_disk(
    rt: &impl Abort,
    alloc: Global,
    disk: MemDisk,
) -> (MemDisk, Result<Counts, StoreFault>) {
    let key = Key::of(&disk);
    match open(alloc, disk, 100) {
        Ok((commit, image)) => {
            let found = counts(rt, alloc, image);
            (key.open(commit.into_disk()), Ok(found))
        }
        Err(refused) => (refused.disk, Err(refused.fault)),
    }
}
