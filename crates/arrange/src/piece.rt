//! Pieces of the arrangement.
use exact_point::PointName;
use plane_base::Seg;

/// A piece between two neighbouring nodes on a segment, its left end first, with a bit for each
/// base layer that has an odd number of segments over it.
#[derive(Clone, Copy, Debug, PartialEq, Eq)]
pub struct Elementary {
    pub support: Seg,
    pub from: PointName,
    pub to: PointName,
    pub mask: u32,
}
