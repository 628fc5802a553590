//! Laws over the definitions: each function does nothing, and its contract is the law.

ghost use Rattle.overlay_terms.specs.Laws.{AcceptedIsOrderly, DirectionHasNoMeaning, EdgeExactlyOnSegments};
ghost use Rattle.overlay_terms.specs.Laws.{FalseWhereBasesAre, NothingFromNothing, OrderIsTotal};
ghost use Rattle.overlay_terms.specs.Laws.{SamePlaceSameAnswer, TwiceIsAllEdge, ValueIsSteps};

/// A ring turned round leaves the inside and the edge of its layer as they were.
pub fn direction_has_no_meaning()
    ensures { DirectionHasNoMeaning }
{}

/// A ring given twice leaves the inside of its layer as it was, and all of the ring is edge.
pub fn twice_is_all_edge()
    ensures { TwiceIsAllEdge }
{}

/// Where no base layer is, no definition is.
pub fn nothing_from_nothing()
    ensures { NothingFromNothing }
{}

/// The answer at a point is `edge` exactly where a segment in reach holds the point.
pub fn edge_exactly_on_segments()
    ensures { EdgeExactlyOnSegments }
{}

/// The order of points over positive denominators is total, and those of which neither comes first are the same place.
pub fn order_is_total()
    ensures { OrderIsTotal }
{}

/// Points that are the same place have the same answer in every layer, whatever their positive denominators.
pub fn same_place_same_answer()
    ensures { SamePlaceSameAnswer }
{}

/// What accepted commands leave has no name twice, and each definition is over earlier layers; they
/// are no more than there may be.
pub fn accepted_is_orderly()
    ensures { AcceptedIsOrderly }
{}

/// The value of a layer among orderly ones is that of its steps, where the bit of each base layer in reach is the
/// parity of its segments below.
pub fn value_is_steps()
    ensures { ValueIsSteps }
{}

/// A layer among orderly ones is false at a point where every base layer that it reaches is.
pub fn false_where_bases_are()
    ensures { FalseWhereBasesAre }
{}
