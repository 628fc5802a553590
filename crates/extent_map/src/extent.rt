//! A run of blocks.
ghost use Rattle.std.specs.Prelude.{◌≡◌, ◌+◌, ◌*◌, ◌^◌, ◌<◌, ◌≤◌, IsTrue, IfSome, IsSome, ◌↔◌};

/// Blocks of a file one after another: the number of the first, and how many they are. There is at least one.
#[derive(Clone, Copy, Debug, PartialEq, Eq)]
pub struct Extent {
    pub block: u64,
    pub blocks: u64,
    ghost some: { 1 ≤ blocks },
    ghost within: { block + blocks < 2 ^ 64 },
}

impl Extent {
    /// The blocks from one number on, where they are some and their end is a number.
    pub fn new(block: u64, blocks: u64) -> Option<Extent>
        ensures valid { IsSome result ↔ ((1 ≤ blocks) × (block + blocks < 2 ^ 64)) }
        ensures block { IfSome result (λ extent. extent.block ≡ block) }
        ensures blocks { IfSome result (λ extent. extent.blocks ≡ blocks) }
    {
        if blocks == 0 || blocks > u64::MAX - block {
            return None;
        }
        Some(Extent { block, blocks })
    }

    /// Whether all of these blocks come before another extent's first.
    pub(crate) fn is_before(&self, other: &Extent) -> bool
        ensures { IsTrue result ↔ (self.now.block + self.now.blocks ≤ other.now.block) }
    {
        self.block + self.blocks <= other.block
    }
}
