//! A record that has its place, and the write that it becomes.
ghost use Rattle.std.specs.Prelude.{IfOk};
ghost use Rattle.commit_plan.specs.Filed.{IsWriteOf};

use crate::write::Write;
use extent_map::{BLOCK, blocks_of};
use std::alloc::AllocError;
use std::marker::Model;
use store_terms::root::RecordExtent;

/// A record, and where it goes.
#[derive(Drop)]
pub(crate) struct FiledRecord {
    pub(crate) extent: RecordExtent,
    pub(crate) bytes: Vec<u8>,
}

impl Model for FiledRecord {
    ghost use Rattle.commit_plan.specs.Filed.{Filed, HasPlace};

    ghost Value = { Filed };

    ghost view = { λ r. record { extent = r.extent; bytes = r.bytes.items } };

    ghost invariant = { λ r. HasPlace (record { extent = r.extent; bytes = r.bytes.items }) };
}

impl FiledRecord {
    /// Its write, in whole blocks: its bytes, filled up by zeros.
    pub(crate) fn into_write(self) -> Result<Write, AllocError>
        ensures { IfOk result (IsWriteOf self) }
    {
        let RecordExtent { block, size } = self.extent;
        let mut bytes = self.bytes;
        bytes.resize(blocks_of(size) as usize * BLOCK, 0)?;
        Ok(Write {
            at: block as usize * BLOCK,
            bytes,
        })
    }
}
