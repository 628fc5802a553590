//! Laws of marks.
ghost use Rattle.swept_area.specs.SweptLaws.{AreaIsNear, CutsAddUp, MarkIsOfLine, SidesCancel, WholeIsExact};

/// A mark is of the line and the place alone.
pub fn mark_is_of_line()
    ensures { MarkIsOfLine }
{}

/// A piece that is cut has the area of its two parts.
pub fn cuts_add_up()
    ensures { CutsAddUp }
{}

/// A cut taken with the inside on either side has no area.
pub fn sides_cancel()
    ensures { SidesCancel }
{}

/// Between whole places nothing is rounded.
pub fn whole_is_exact()
    ensures { WholeIsExact }
{}

/// The sum is as near to the exact area as what each piece may be off.
pub fn area_is_near()
    ensures { AreaIsNear }
{}
