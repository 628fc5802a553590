//! Laws of the leaned plane: each function does nothing, and its contract is the law.

ghost use Rattle.crossing_sweep.specs.Leaning.{LeaningKeeps};

/// Leaning keeps sides and turns, puts places that are near in order from left to right, and leaves
/// no segment vertical.
pub fn leaning_keeps()
    ensures { LeaningKeeps }
{}
