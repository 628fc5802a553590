//! Segments with the layer that they come from.
use plane_base::Seg;

/// A segment, and the number of its base layer among those that a layer reaches, from 0 on.
#[derive(Clone, Copy, Debug, PartialEq, Eq)]
pub struct MarkedSeg {
    pub layer: u8,
    pub seg: Seg,
}
