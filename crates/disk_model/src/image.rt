//! What a crash leaves of a disk in memory: one file of those that it may leave, by a choice.
ghost use Rattle.std.specs.Prelude.{◌≡◌, replicate, length, IfOk, OnOk};
ghost use Rattle.disk_model.specs.Replay.{State, start, after, replay};
ghost use Rattle.disk_model.specs.Image.{IsChosen};
ghost use Rattle.disk_model.specs.Played.{Plays};

use crate::mem_disk::Call;
use crate::overwriting::overwrite;
use std::alloc::{AllocError, Global};

/// Which bytes the ranges written since the last sync are to have.
#[derive(Clone, Copy, Debug, PartialEq, Eq)]
pub enum Choice {
    /// The bytes and the length of that sync.
    Old,
    /// The written bytes, and the present length.
    New,
    /// This one byte throughout, with the present length.
    Fill(u8),
}

/// A file as it was last synced, as it is seen, and as it is seen with every written byte filled.
#[derive(Drop)]
struct Faces {
    synced: Vec<u8>,
    seen: Vec<u8>,
    filled: Vec<u8>,
}

impl Faces {
    /// A file whose bytes are all on the disk.
    fn new(alloc: Global, file: &[u8]) -> Result<Faces, AllocError>
        ensures { IfOk result (λ faces. (faces.synced.items ≡ file.now) × (faces.seen.items ≡ file.now)
            × (faces.filled.items ≡ file.now)) }
    {
        Ok(Faces {
            synced: file.to_vec(alloc)?,
            seen: file.to_vec(alloc)?,
            filled: file.to_vec(alloc)?,
        })
    }

    /// Plays one call more.
    fn play(&mut self, alloc: Global, call: &Call, byte: u8) -> Result<(), AllocError>
        ensures { OnOk result ((s : State) → Plays s byte self.old → Plays (after call.now s) byte self.new) }
    {
        match call {
            Call::Length | Call::Read(_, _) => Ok(()),
            Call::Write(at, bytes) => {
                let more = filling(alloc, byte, bytes.len())?;
                overwrite(&mut self.filled, *at, &more)?;
                overwrite(&mut self.seen, *at, bytes)?;
                Ok(())
            }
            Call::Sync => {
                self.synced = self.seen.to_vec(alloc)?;
                self.filled = self.seen.to_vec(alloc)?;
                Ok(())
            }
        }
    }
}

/// So many times one byte.
fn filling(alloc: Global, byte: u8, count: usize) -> Result<Vec<u8>, AllocError>
    ensures { IfOk result (λ bytes. bytes.items ≡ replicate count byte) }
{
    vec![in alloc; byte; count]
}

/// What a crash after these calls leaves of a file, by a choice.
pub fn image_of(
    alloc: Global,
    first: &[u8],
    calls: &[Call],
    choice: Choice,
) -> Result<Vec<u8>, AllocError>
    ensures { IfOk result (λ bytes. IsChosen (replay (start first.now) calls.now) choice bytes.items) }
{
    let byte = match choice {
        Choice::Fill(byte) => byte,
        Choice::Old | Choice::New => 0,
    };
    let mut faces = Faces::new(alloc, first)?;
    for call in calls {
        faces.play(alloc, call, byte)?;
    }
    Ok(match choice {
        Choice::Old => faces.synced,
        Choice::New => faces.seen,
        Choice::Fill(_) => faces.filled,
    })
}
