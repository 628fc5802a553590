//! The law of the order of points. The order itself is `HPoint::cmp`, of `point.rt`.
ghost use Rattle.exact_point.specs.Place.{PointsAreOrdered};

/// The order of points is total, and points are equal by it exactly where they are one place.
pub fn points_are_ordered()
    ensures { PointsAreOrdered }
{}
