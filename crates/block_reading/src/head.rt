//! The head of a block.

/// The head of a block: its length in bytes, what it is, and how many of each it has.
#[derive(Clone, Copy, Debug)]
pub struct Head {
    pub length: u64,
    pub magic: u32,
    pub version: u32,
    /// What its jobs ask: 0 pairs, 1 cells, 2 points.
    pub kind: u32,
    /// 1 where outlines are wanted, and 2 where fractions are.
    pub flags: u32,
    /// The most steps that one pass is to have.
    pub limit: u32,
    pub features: u32,
    pub rings: u32,
    pub points: u32,
    pub jobs: u32,
    pub job_words: u32,
    pub expression: u32,
    pub layers: u32,
}
