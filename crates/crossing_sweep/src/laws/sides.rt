//! Laws of the sides of pieces: each function does nothing, and its contract is the law.

ghost use Rattle.crossing_sweep.specs.Closed.{StretchIsClosed};
ghost use Rattle.crossing_sweep.specs.Kept.{MasksAreKept};
ghost use Rattle.crossing_sweep.specs.Masks.{MasksStepUp};
ghost use Rattle.crossing_sweep.specs.Sides.{SidesAreCarried};

/// The sides of a piece that begins in the strip, upright or not, are what lies under its line and
/// up to it just after each place of the strip that it passes.
pub fn sides_are_carried()
    ensures { SidesAreCarried }
{}

/// Under the lowest member of a status lies nothing, and under each other one what is up to the one
/// below it: a sweep carries its masks upwards.
pub fn masks_step_up()
    ensures { MasksStepUp }
{}

/// What lies under a stretch and up to it just after the last node on it lies so up to the next one: a
/// sweep need not look again at what it passes.
pub fn masks_are_kept()
    ensures { MasksAreKept }
{}

/// Each stretch that holds the next node is a piece from the last node on it, and its sides are what
/// lies under the stretch and up to it just after that one.
pub fn stretch_is_closed()
    ensures { StretchIsClosed }
{}
