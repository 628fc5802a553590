//! Laws of a pass over a strip, from node to node: each function does nothing, and its contract is the law.

ghost use Rattle.crossing_sweep.specs.Beginning.{PassBegins};
ghost use Rattle.crossing_sweep.specs.Passing.{PassEnds, PassGoesOn};

/// One step of a pass leads to the next node, and all holds there as it held before: it sees
/// only the units that hold the node, those that enter there, and two new pairs of neighbours.
pub fn pass_goes_on()
    ensures { PassGoesOn }
{}

/// Where no place is found ahead, no node of the closed strip comes any more.
pub fn pass_ends()
    ensures { PassEnds }
{}

/// Below all of the left border, with the units of the strip in the order in which they are met and
/// with its ends and border places known, a pass can begin.
pub fn pass_begins()
    ensures { PassBegins }
{}
