//! A law over the definitions: the function does nothing, and its contract is the law.
ghost use Rattle.feature_spots.specs.Laws.{SpotsAreOfSegments};

/// Of closed rings a spot is by the segments of the rings what a store says of a layer.
pub fn spots_are_of_segments()
    ensures { SpotsAreOfSegments }
{}
