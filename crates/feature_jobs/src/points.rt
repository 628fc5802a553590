//! Rows of points.
ghost use Rattle.std.specs.Prelude.{◌≡◌, ◌++◌, ◌≤ℤ◌, pos, slice_get, flat_map, All, IfOk, OnOk};
ghost use Rattle.feature_spots.specs.Spots.{IsNear};
ghost use Rattle.feature_jobs.specs.Rows.{point_row, point_rows, AreNear, ArePositive};

use crate::bytes::add_u32;
use block_reading::FarFraction;
use feature_spots::spot_number;
use feature_windows::{Features, Rings};
use std::alloc::{AllocError, Global};

/// Adds the row of a point against the rings of a feature.
fn add_point(to: &mut Vec<u8>, rings: &Rings, point: &FarFraction) -> Result<(), AllocError>
    ensures { OnOk result (All (All IsNear) rings.now → pos 1 ≤ℤ point.now.w
        → to.new.items ≡ to.old.items ++ point_row rings.now point.now) }
{
    let (counts, points) = rings.lent();
    add_u32(to, spot_number(counts, points, point))
}

/// The rows of points against the rings of a feature.
fn rows_against(alloc: Global, rings: &Rings, points: &[FarFraction]) -> Result<Vec<u8>, AllocError>
    ensures { IfOk result (λ rows. All (All IsNear) rings.now → ArePositive points.now
        → rows.items ≡ flat_map (point_row rings.now) points.now) }
{
    let mut rows = Vec::new(alloc);
    for point in points {
        add_point(&mut rows, rings, point)?;
    }
    Ok(rows)
}

/// The rows of points against a feature; none where it is not there.
pub(crate) fn point_rows(
    alloc: Global,
    features: &Features,
    feature: usize,
    points: &[FarFraction],
) -> Result<Vec<u8>, AllocError>
    ensures { IfOk result (λ rows. AreNear features.now → ArePositive points.now
        → rows.items ≡ point_rows (slice_get features.now feature) points.now) }
{
    match features.rings_of(feature) {
        Some(rings) => rows_against(alloc, rings, points),
        None => Ok(Vec::new(alloc)),
    }
}
