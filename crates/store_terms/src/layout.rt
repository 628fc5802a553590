//! The numbers of a store's file, as docs/FORMAT.md has them: where the parts of a root slot are, and what its bytes
//! say. How long a block is, and which is the first that holds a record, `extent_map` says.

use extent_map::BLOCK;
use overlay_terms::limits::VERSION_MAX;

/// Where the two root slots end, a block each.
pub const SLOTS_END: usize = 2 * BLOCK;

/// The byte of an open gate, the first of its slot. Every other value is closed.
pub const GATE_OPEN: u8 = 0xA7;

/// The byte that a gate is closed with.
pub const GATE_CLOSED: u8 = 0;

/// How far a body is from the gate of its slot.
pub const BODY: usize = 16;

/// How many bytes a body has.
pub const BODY_SIZE: usize = 48;

/// How many bytes of a body are read: zeros follow.
pub const BODY_READ: usize = 40;

/// How many blocks a new store has: its slots, and one for its catalog.
pub const NEW_BLOCKS: u32 = 3;

/// The bytes that each body begins with.
pub const MAGIC: &[u8] = b"OVLSTORE";

/// The number of the file's format.
pub const FORMAT: u32 = 2;

/// The number of the older format, whose columns are twice as wide.
pub const OLD_FORMAT: u32 = 1;

/// How many columns a catalog of the older format lists for a derived layer.
pub const OLD_COLUMN_COUNT: u8 = 17;

/// The greatest sequence of a root, and the greatest version.
pub const NUMBER_MAX: u64 = VERSION_MAX;
