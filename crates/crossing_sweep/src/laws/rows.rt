//! Laws of what a pass carries along: each function does nothing, and its contract is the law.

ghost use Rattle.crossing_sweep.specs.RowLaws.{NodesAreFew, RowsAreSome, RowsBegin, RowsEnd, RowsGoOn};
ghost use Rattle.crossing_sweep.specs.RowLaws.{RowsInOrder, RowsTellOversize, UnitChangesMasks};
ghost use Rattle.crossing_sweep.specs.StripCrossed.{StripParts};

/// Just after a place, what lies up to a unit is what lies under it, changed by the layers over the unit.
pub fn unit_changes_masks()
    ensures { UnitChangesMasks }
{}

/// Below all of the left border nothing is carried: no piece of the boundary ends there.
pub fn rows_begin()
    ensures { RowsBegin }
{}

/// One step of a pass carries on: the pieces that end at the next node become rows, those that begin
/// there are carried, and the rows are all pieces of the boundary that end there or before it.
pub fn rows_go_on()
    ensures { RowsGoOn }
{}

/// In the order of the numbers of their ends, rows are in the order of a tile, each once.
pub fn rows_in_order()
    ensures { RowsInOrder }
{}

/// Wherever a pass is, its rows are some of the tile's pieces.
pub fn rows_are_some()
    ensures { RowsAreSome }
{}

/// Where they are more than a cap, the tile has too many, wherever the pass is.
pub fn rows_tell_oversize()
    ensures { RowsTellOversize }
{}

/// Where no place is found ahead, the rows are the tile, and all nodes of the closed strip are passed.
pub fn rows_end()
    ensures { RowsEnd }
{}

/// The places passed are few: at most three for each segment of the input by each, and one for
/// each segment and border.
pub fn nodes_are_few()
    ensures { NodesAreFew }
{}

/// The pieces of the tile of a strip's column are those of the strip's that begin there, in their order.
pub fn strip_parts()
    ensures { StripParts }
{}
