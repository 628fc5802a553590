//! Whether a point lies in a column with both its borders.
ghost use Rattle.std.specs.Prelude.{◌≡◌, ◌+◌, ◌*ℤ◌, int_le};
ghost use Rattle.overlay_terms.specs.Column.{border};
ghost use Rattle.exact_point.specs.Place.{place};
ghost use Rattle.arrange.specs.Arrangement.{is_in_closed_column};

use exact_point::{HPoint, border_side, end_side};
use plane_base::Column;

/// Whether a point lies from a column's left border to its right border.
pub(crate) fn is_within(column: Column, p: &HPoint) -> bool
    ensures { result ≡ is_in_closed_column column (place p.now) }
{
    let from_left = border_side(column, p);
    let to_right = is_up_to(column, p);
    // Eager, so that one equation says all: both sides are known by then.
    from_left.is_ge() & to_right
}

/// Whether a point lies left of a column's right border or on it.
pub fn is_up_to(column: Column, p: &HPoint) -> bool
    ensures { result ≡ int_le p.now.x (border (column + 1) *ℤ p.now.w) }
{
    end_side(column, p).is_le()
}
