//! What the words say to both programs of their store and their workers.
ghost use Rattle.std.specs.Prelude.{◌≤◌, ◌≡◌, ◌≢◌, true, is_some};
ghost use Rattle.program_words.specs.declared.keeping.Opening.TheVariants.{Existing};

/// How the store's file is opened.
#[derive(Clone, Copy, Debug, PartialEq, Eq, Drop)]
pub enum Opening {
    /// As a store that is there.
    Existing,
    /// To make a store in it: it is absent or empty.
    New,
    /// As a store that is there, of which nothing is changed.
    ReadOnly,
}

/// Where layers are kept and how many threads build their tiles, within the limits.
#[derive(Debug, Drop)]
pub struct Keeping {
    /// The path of the store's file; without it all is kept in memory.
    pub store: Option<String>,
    /// How that file is opened.
    pub opening: Opening,
    /// How many threads build tiles: 1 to 8.
    pub workers: u32,
    /// How many blocks of 4,096 bytes the store's file may have: 1 to 1,048,576.
    pub max_blocks: u32,
    pub ghost some_workers: { 1 ≤ workers },
    pub ghost few_workers: { workers ≤ 8 },
    pub ghost some_blocks: { 1 ≤ max_blocks },
    pub ghost few_blocks: { max_blocks ≤ 1048576 },
    pub ghost opened_in_a_store: { opening ≢ Existing → is_some store ≡ true },
}
