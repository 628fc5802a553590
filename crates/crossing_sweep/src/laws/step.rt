//! Laws of one step of a sweep, from node to node: each function does nothing, and its contract is the
//! law.

ghost use Rattle.crossing_sweep.specs.Step.{QueueGoesOn, StatusGoesOn};

/// With those that hold the next node and go on after it in the place of those that held it, a status
/// is again one.
pub fn status_goes_on()
    ensures { StatusGoesOn }
{}

/// The places found ahead stay complete where the two new pairs of neighbours at the node are tested:
/// two tests a node are enough.
pub fn queue_goes_on()
    ensures { QueueGoesOn }
{}
