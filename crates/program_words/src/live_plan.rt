//! What the words of the live program ask for.
ghost use Rattle.std.specs.Prelude.{◌≤◌, vec_len};

use crate::keeping::Keeping;

/// The most pairs of paths.
pub const PAIRS_MAX: usize = 4;

/// Sessions to be run, within the limits.
#[derive(Debug, Drop)]
pub struct LivePlan {
    /// The store and the workers.
    pub keeping: Keeping,
    /// Where each session reads its lines, and where its replies go: at most four pairs of paths, in the order of the
    /// words. Without one there is one session, on standard input and output.
    pub pairs: Vec<(String, String)>,
    pub ghost few_pairs: { vec_len pairs ≤ 4 },
}

/// What words ask for: a text that is printed, or sessions.
#[derive(Debug, Drop)]
pub enum Asked {
    /// How the program is called.
    Help,
    /// Which program it is.
    Version,
    /// Sessions.
    Run(LivePlan),
}
