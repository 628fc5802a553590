//! Laws of the next node after a place: each function does nothing, and its contract is the law.

ghost use Rattle.crossing_sweep.specs.NextNode.{EachHasNext, NodesRunOut};

/// Where a node comes after a place, there is a next one, whose coordinates are small.
pub fn each_has_next()
    ensures { EachHasNext }
{}

/// A sweep from node to node ends: the nodes run out.
pub fn nodes_run_out()
    ensures { NodesRunOut }
{}
