//! Laws of the status of a sweep, from one place to the next node: each function does nothing, and its
//! contract is the law.

ghost use Rattle.crossing_sweep.specs.Status.{NeighboursCross, OrderIsKept, SidesFall, TurnedRound};

/// A status keeps its order up to the next node.
pub fn order_is_kept()
    ensures { OrderIsKept }
{}

/// Of two members that hold the next node, the lower and the one after it cross there: a node that
/// is a crossing is found from neighbours.
pub fn neighbours_cross()
    ensures { NeighboursCross }
{}

/// The members under the next node come first, then those that hold it, then those over it.
pub fn sides_fall()
    ensures { SidesFall }
{}

/// With those that go on or begin at the node in the order of their directions, the status is in
/// order just after it.
pub fn turned_round()
    ensures { TurnedRound }
{}
