//! Laws over the definitions: each function does nothing, and its contract is the law.
ghost use Rattle.extent_map.specs.FirstFit.{PlannedIsNotFull};

/// There is a plan exactly where no length is left without a run: the two outcomes of `plan` exclude one another.
pub fn planned_is_not_full()
    ensures { PlannedIsNotFull }
{}
