//! Where a point lies against a feature.
ghost use Rattle.std.specs.Prelude.{◌≡◌};
ghost use Rattle.feature_spots.specs.Spots.{number_of};

/// Where a point lies against a feature.
#[derive(Clone, Copy, Debug, PartialEq, Eq)]
pub enum Spot {
    Outside,
    Inside,
    /// On a step of the feature.
    OnEdge,
    /// Its denominator is beyond 2^42: it was not looked for.
    TooFine,
}

impl Spot {
    /// The number of an answer.
    pub fn number(self) -> u32
        ensures { result ≡ number_of self }
    {
        match self {
            Spot::Outside => 0,
            Spot::Inside => 1,
            Spot::OnEdge => 2,
            Spot::TooFine => 3,
        }
    }
}
