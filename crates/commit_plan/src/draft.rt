//! The records of a commit, each put in its place.
ghost use Rattle.std.specs.Prelude.{◌≡◌, ◌⊎◌, ◌^◌, ◌<◌, ◌∷◌, [], length, IfOk, IfErr, IsErrOf};
ghost use Rattle.commit_plan.specs.Filed.{AreWritesOf};
ghost use Rattle.commit_plan.specs.Drafted.{ArePlaced, HasNoRunFor, begun_in, with_filed};

use crate::fault::StoreFault;
use crate::filed_record::FiledRecord;
use crate::room::Room;
use crate::write::Write;
use std::alloc::{AllocError, Global};
use std::marker::Model;
use store_terms::root::RecordExtent;

/// The records of a commit that have their places, in room that the live root leaves.
#[derive(Drop)]
pub(crate) struct Draft<'a> {
    live: &'a Room,
    /// The live root's room, in which the records are taken too.
    room: Room,
    records: Vec<FiledRecord>,
}

impl<'a> Model for Draft<'a> {
    ghost use Rattle.extent_map.specs.Taken.{taken_of};
    ghost use Rattle.commit_plan.specs.Drafted.{Drafted, IsDraft};

    ghost Value = { Drafted };

    ghost view = { λ d. record {
      given = taken_of d.live.now.map;
      limit = d.live.now.max_blocks;
      filed = d.records.items;
    } };

    ghost invariant = { λ d. IsDraft d.live.now d.room d.records.items };
}

impl<'a> Draft<'a> {
    /// No record yet, in the room that a live root leaves.
    pub(crate) fn new(alloc: Global, live: &'a Room) -> Result<Draft<'a>, AllocError>
        ensures { IfOk result (λ draft. draft ≡ begun_in live.now) }
    {
        Ok(Draft {
            live,
            room: live.try_copy(alloc)?,
            records: Vec::new(alloc),
        })
    }

    /// How many blocks the file may have.
    pub(crate) fn max_blocks(&self) -> u32
        ensures value { result ≡ self.now.limit }
        ensures placed { ArePlaced self.now }
    {
        self.live.max_blocks
    }

    /// Puts a record in the lowest place that is free for it.
    pub(crate) fn file(&mut self, bytes: Vec<u8>) -> Result<RecordExtent, StoreFault>
        requires { length bytes.items < 2 ^ 32 }
        ensures ok { IfOk result (λ e. self.new
            ≡ with_filed self.old (record { extent = e; bytes = bytes.items } ∷ [])) }
        ensures within { IfOk result (λ e. (e.block < 2 ^ 32) × (e.size < 2 ^ 32)) }
        ensures full { IsErrOf result StoreFault.Full → HasNoRunFor self.old (length bytes.items ∷ []) }
        ensures err { IfErr result (λ fault. (fault ≡ StoreFault.Full) ⊎ (fault ≡ StoreFault.OutOfMemory)) }
    {
        // Its memory first: no run is taken without its record.
        self.records.reserve(1)?;
        let size = bytes.len() as u32;
        let run = self.room.place(size)?;
        let extent = RecordExtent {
            block: run.block,
            size,
        };
        self.records.push_reserved(FiledRecord { extent, bytes });
        Ok(extent)
    }

    /// The writes of the records, in their order.
    pub(crate) fn into_writes(self, alloc: Global) -> Result<Vec<Write>, AllocError>
        ensures { IfOk result (λ writes. AreWritesOf self.entry.filed writes.items) }
    {
        // One more: the body's, which comes last.
        let mut writes = Vec::with_capacity(alloc, self.records.len() + 1)?;
        for filed in self.records {
            writes.push(filed.into_write()?)?;
        }
        Ok(writes)
    }
}
