//! Laws of the places that a sweep has found ahead: each function does nothing, and its contract is the
//! law.

ghost use Rattle.crossing_sweep.specs.Border.{FirstIsNextAtBorder, NextIsQueuedAtBorder};
ghost use Rattle.crossing_sweep.specs.Queue.{FirstIsNext, NextIsQueued};

/// Where all ends and border places ahead are known, and where neighbours of the status cross, the next
/// node is known: no other pair of segments has to be tested.
pub fn next_is_queued()
    ensures { NextIsQueued }
{}

/// So the first of the known places is the next node.
pub fn first_is_next()
    ensures { FirstIsNext }
{}

/// At the left border of a strip the next node is known from the stretches that have entered alone.
pub fn next_is_queued_at_border()
    ensures { NextIsQueuedAtBorder }
{}

/// So there, too, the first of the known places is the next node.
pub fn first_is_next_at_border()
    ensures { FirstIsNextAtBorder }
{}
