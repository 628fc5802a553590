//! Whether a ring is drawn.

/// What became of rings that were to be drawn.
#[derive(Clone, Copy, Debug, PartialEq, Eq)]
pub enum Drawing {
    /// All steps are drawn.
    Whole,
    /// A step that does not lie off the core on one side leaves the plane.
    StepTooLong,
}
