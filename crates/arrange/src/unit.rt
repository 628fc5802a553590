//! Units of the arrangement.
use plane_base::Seg;

/// A stretch between neighbouring ends of collinear segments, with a bit for each base layer that
/// has an odd number of segments over it.
#[derive(Clone, Copy, Debug, PartialEq, Eq)]
pub struct Unit {
    pub seg: Seg,
    pub mask: u32,
}
