//! Laws of the tiles that are kept: each function does nothing, and its contract is the law.

ghost use Rattle.overlay_terms.specs.KeptLaws.{ExactnessStays, HistoryHasRoom, HistoryIsExact};
ghost use Rattle.overlay_terms.specs.KeptLaws.{LayersStayOrderly, OnlyReachIsTouched, UntouchedInputStays};

/// A command leaves a tile of a derived layer untouched exactly where it leaves the tile's input
/// as it is, and the layer derived.
pub fn untouched_input_stays()
    ensures { UntouchedInputStays }
{}

/// An accepted command touches tiles of those layers alone that reach the name that it puts, defines or takes out.
pub fn only_reach_is_touched()
    ensures { OnlyReachIsTouched }
{}

/// Where each tile of a version is that of its input, so is each tile of the next one, whatever is published.
pub fn exactness_stays()
    ensures { ExactnessStays }
{}

/// The layers of the next version are orderly where those of a version are, and no more than there
/// may be where those are no more.
pub fn layers_stay_orderly()
    ensures { LayersStayOrderly }
{}

/// Where each tile of a history's first version is that of its input, so is each tile of its newest.
pub fn history_is_exact()
    ensures { HistoryIsExact }
{}

/// Where a history's first version has no more layers than there may be, so has its newest.
pub fn history_has_room()
    ensures { HistoryHasRoom }
{}
