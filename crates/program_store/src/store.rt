//! The store that a program keeps its layers in.
ghost use Rattle.std.specs.Prelude.{◌≡◌, ◌≢◌, false, is_some, IfOk, IfSome, IsOk};
ghost use Rattle.overlay_terms.specs.Histories.{empty_version};
ghost use Rattle.overlay_engine.specs.HonestEngine.{MakesHonestly, RecoversHonestly};
ghost use Rattle.program_words.specs.declared.keeping.Opening.TheVariants.{New};
ghost use Rattle.root_store.specs.Running.{KeepsTo};
ghost use Rattle.root_store.specs.declared.phase.Phase.TheVariants.{Idle};

use crate::fault::ProgramFault;
use crate::refusal::Refusal;
use commit_plan::fault::StoreFault;
use disk_model::disk::Disk;
use file_disk::file_disk::FileDisk;
use overlay_engine::engine::Engine;
use program_words::keeping::{Keeping, Opening};
use root_store::open_fault::OpenFault;
use std::alloc::Global;
use std::fs::File;
use std::io;
use std::os::unix::fs::FileExt;
use std::rt::Files;
use store_terms::layout::{BODY, MAGIC, SLOTS_END};

/// Makes or opens the store that the words name. None comes where they name none. Nothing is claimed of what the file
/// holds.
pub fn open_store<'k, Q: Files<File = File> + AllocGlobal>(
    rt: &Q,
    keeping: &'k Keeping,
) -> Result<Option<Engine<FileDisk>>, Refusal<'k>>
    // There is an engine just where the words name a store. Where they name none, nothing is refused.
    ensures named { IfOk result (λ opened. is_some opened ≡ is_some keeping.now.store) }
    ensures memory { is_some keeping.now.store ≡ false → IsOk result }
    // Its file may have as many blocks as the words say, and no commit is under way.
    ensures limit { IfOk result (λ opened. IfSome opened (λ e. KeepsTo keeping.now.max_blocks e.flusher.commit)) }
    ensures idle { IfOk result (λ opened. IfSome opened (λ e. e.flusher.commit.phase ≡ Idle)) }
    // Of a store that is made the version is the empty one.
    ensures made { keeping.now.opening ≡ New → IfOk result (λ opened. IfSome opened (λ e. e.version ≡ empty_version)) }
{
    let Some(path) = &keeping.store else {
        return Ok(None);
    };
    let disk = match open_disk(rt, path, keeping.opening) {
        Ok(disk) => disk,
        Err(reason) => return Err(Refusal::of_file(
            ProgramFault::Store(StoreFault::Device),
            path,
            reason,
        )),
    };
    match engine_on(rt.alloc(), disk, keeping.opening, keeping.max_blocks) {
        Ok(engine) => Ok(Some(engine)),
        Err(refused) => Err(Refusal::about(ProgramFault::Store(refused.fault), path)),
    }
}

/// The engine of a store that is made on a disk, or of the one that is on it. The file may have at most so many blocks.
pub fn engine_on<D: Disk>(
    alloc: Global,
    disk: D,
    opening: Opening,
    max_blocks: u32,
) -> Result<Engine<D>, OpenFault<D>>
    // Where the disk keeps the rules, it is what a creation gives, or what a recovery gives, and
    // a refusal leaves what these leave.
    ensures makes { opening ≡ New → D.is_honest disk → MakesHonestly D.Disk max_blocks disk result }
    ensures recovers { opening ≢ New → D.is_honest disk → RecoversHonestly D.Disk disk result }
    ensures limit { IfOk result (λ e. KeepsTo max_blocks e.flusher.commit) }
    ensures idle { IfOk result (λ e. e.flusher.commit.phase ≡ Idle) }
    ensures made { opening ≡ New → IfOk result (λ e. e.version ≡ empty_version) }
{
    match opening {
        Opening::New => Engine::create(alloc, disk, max_blocks),
        Opening::Existing | Opening::ReadOnly => Engine::recover(alloc, disk, max_blocks),
    }
}

/// The disk in the store's file.
fn open_disk<Q: Files<File = File> + AllocGlobal>(
    rt: &Q,
    path: &str,
    opening: Opening,
) -> io::Result<FileDisk> {
    match opening {
        Opening::Existing => FileDisk::at(rt, path, false),
        Opening::New => FileDisk::at(rt, path, true),
        Opening::ReadOnly => FileDisk::reading(rt, path),
    }
}

/// Whether a file has a store's magic in one of its two root slots, so that it must not be written over. What a crash
/// left of a store has it too.
pub fn is_store(file: &File) -> io::Result<bool> {
    Ok(has_magic(file, BODY as u64)? || has_magic(file, (SLOTS_END / 2 + BODY) as u64)?)
}

/// Whether a file has the magic at a place. A shorter file has not.
fn has_magic(file: &File, at: u64) -> io::Result<bool> {
    let mut found = [0; 8];
    match file.read_exact_at(&mut found, at) {
        Ok(()) => Ok(&found[..] == MAGIC),
        Err(error) if error.kind() == io::ErrorKind::UnexpectedEof => Ok(false),
        Err(error) => Err(error),
    }
}
