//! Laws of the last node on a stretch: each function does nothing, and its contract is the law.

ghost use Rattle.crossing_sweep.specs.LastNode.{LastNodeIsNew, LastNodeStays};

/// What does not hold the next node keeps its last one.
pub fn last_node_stays()
    ensures { LastNodeStays }
{}

/// What holds a node of the strip has it for its last one.
pub fn last_node_is_new()
    ensures { LastNodeIsNew }
{}
