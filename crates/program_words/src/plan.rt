//! What the words of the program that runs scripts ask for.
ghost use Rattle.std.specs.Prelude.{◌≤◌, vec_len};

use crate::keeping::Keeping;

/// The most workers.
pub const WORKERS_MAX: u32 = 8;

/// How many workers there are where the words do not say it.
pub(crate) const WORKERS_USUAL: u32 = 2;

/// The most blocks that a file may be allowed.
pub const BLOCKS_MAX: u32 = 1_048_576;

/// How many blocks a file is allowed where the words do not say it.
pub(crate) const BLOCKS_USUAL: u32 = 65_536;

/// The most scripts.
pub const SCRIPTS_MAX: usize = 4;

/// What the words ask for, within the limits.
#[derive(Debug, Drop)]
pub struct Plan {
    /// The store and the workers.
    pub keeping: Keeping,
    /// The paths of the scripts, in the order of the words: at most four. Without one there is one session, on
    /// standard input.
    pub scripts: Vec<String>,
    pub ghost few_scripts: { vec_len scripts ≤ 4 },
}
