//! Exact places as numbers, and what came of a row of a table beside what the row wants.
use exact_point::{HPoint, reduced};
use std::fmt::Debug;
use std::process::Abort;

/// Three numbers in lowest terms.
pub type Place = (i128, i128, i128);

/// The numbers of a point in lowest terms.
pub fn lowest(p: Option<HPoint>) -> Option<Place> {
    let least = reduced(&p?);
    Some((least.x, least.y, least.w))
}

/// Compares what came of a row, counted from 0, with what it wants.
pub fn check<T: PartialEq + Debug>(rt: &impl Abort, row: usize, got: &T, want: &T) {
    assert!(rt; *got == *want, "row {row}: {got:?} and not {want:?}");
}
