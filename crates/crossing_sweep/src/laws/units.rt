//! The law of the units of an input: the function does nothing, and its contract is the law.

ghost use Rattle.crossing_sweep.specs.UnitStretches.{UnitsAreStretches};

/// The units of an input are what a sweep can run over: stretches of its segments between nodes, one
/// along each segment that goes on just after a place.
pub fn units_are_stretches()
    ensures { UnitsAreStretches }
{}
