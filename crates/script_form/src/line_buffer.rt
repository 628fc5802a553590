//! The line that is being read.
ghost use Rattle.std.specs.Prelude.{◌≡◌, [], ◌++◌, take, IfOk};
ghost use Rattle.script_form.specs.Lines.{line_room, without_cr};

use crate::request::LINE_MAX;
use std::alloc::{AllocError, Global};
use std::marker::Model;

/// The longest line, a CR, and one byte more.
const LINE_ROOM: usize = LINE_MAX + 2;

/// The bytes after the last line feed, in room that is had once. A line that is too long is cut off
/// where no further byte can make it another line.
#[derive(Debug, Drop)]
pub struct LineBuffer {
    bytes: Vec<u8>,
}

impl Model for LineBuffer {
    ghost use Rattle.std.specs.Prelude.{ℕ, ◌+◌, ◌≤◌, List, vec_len, vec_capacity};
    ghost use Rattle.std.specs.Coded.{coded_list, coded_ℕ};
    ghost use Rattle.script_form.specs.Lines.{line_max};

    ghost Value = { List ℕ };

    ghost coded = { coded_list coded_ℕ };

    ghost view = { λ l. l.bytes.items };

    ghost invariant = { λ l. (vec_len l.bytes ≤ line_max + 2) × (line_max + 2 ≤ vec_capacity l.bytes) };
}

impl LineBuffer {
    /// An empty line.
    pub fn new(alloc: Global) -> Result<LineBuffer, AllocError>
        ensures { IfOk result (λ line. line ≡ []) }
    {
        Ok(LineBuffer {
            bytes: Vec::with_capacity(alloc, LINE_ROOM)?,
        })
    }

    /// Puts bytes at the end of the line, as far as they can make a difference.
    pub fn push_all(&mut self, bytes: &[u8])
        ensures { self.new ≡ take line_room (self.old ++ bytes.now) }
    {
        let room = LINE_ROOM - self.bytes.len();
        let fitting = &bytes[..room.min(bytes.len())];
        let _ = self.bytes.extend_from_slice(fitting);
    }

    /// Begins the next line.
    pub fn clear(&mut self)
        ensures { self.new ≡ [] }
    {
        self.bytes.clear();
    }

    /// The bytes of the line.
    pub fn bytes(&self) -> &[u8]
        ensures { result.now ≡ self.now }
    {
        self.bytes.as_slice()
    }

    /// The line without a CR at its end, as a line feed ends it.
    pub fn without_cr(&self) -> &[u8]
        ensures { result.now ≡ without_cr self.now }
    {
        let bytes = self.bytes.as_slice();
        match bytes.split_last() {
            Some((last, front)) if *last == b'\r' => front,
            _ => bytes,
        }
    }
}
