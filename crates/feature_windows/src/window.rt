//! A part of a core, with what is drawn of the rings near it.
ghost use Rattle.std.specs.Prelude.{◌≡◌, true, map};
ghost use Rattle.arrange.specs.Marked.{marked_of};
ghost use Rattle.near_steps.specs.Cores.{box_of};
ghost use Rattle.feature_windows.specs.Shown.{AreShown};

use crate::rings::Rings;
use arrange::MarkedSeg;
use block_reading::Core;

/// A feature that counts for a layer, both by their numbers.
#[derive(Clone, Copy, Debug)]
pub struct Near {
    pub feature: usize,
    pub layer: usize,
}

/// A part of a core with the rings near it by layer, the part's border last; and what is drawn of them, unless a step is too
/// long or the part too wide.
#[derive(Debug, Drop)]
pub struct Window {
    pub core: Core,
    pub(crate) layers: Vec<Rings>,
    pub(crate) marked: Vec<MarkedSeg>,
    pub(crate) is_drawn: bool,
    ghost shown: { is_drawn ≡ true → AreShown (box_of core) layers.items (map marked_of marked.items) },
}
