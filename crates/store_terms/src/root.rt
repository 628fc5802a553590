//! Roots, and where the records of a store lie.
ghost use Rattle.std.specs.Prelude.{◌≡◌};
ghost use Rattle.store_terms.specs.Roots.{format_of};

use crate::layout::{FORMAT, OLD_FORMAT};

/// Where a record lies: its first block, and how many bytes it has.
#[derive(Clone, Copy, Debug, PartialEq, Eq)]
pub struct RecordExtent {
    pub block: u64,
    pub size: u32,
}

/// The number of a commit, that of the version which it wrote, and where its catalog lies.
#[derive(Clone, Copy, Debug, PartialEq, Eq)]
pub struct Root {
    /// Whether it is of format 1, whose columns are other ones: then its tiles count as pending.
    pub is_old: bool,
    pub sequence: u64,
    pub version: u64,
    pub catalog: RecordExtent,
}

/// The number of a root's format.
pub fn format_of(root: Root) -> u32
    ensures { result ≡ format_of root }
{
    if root.is_old { OLD_FORMAT } else { FORMAT }
}

/// What the body of a slot says, whether it is ours or not.
#[derive(Clone, Copy, Debug, PartialEq, Eq)]
pub struct Body {
    /// Whether it begins with the magic.
    pub is_ours: bool,
    pub format: u32,
    pub root: Root,
}
