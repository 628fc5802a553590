//! Pieces of a boundary put together to outlines: closed simple rings with the inside on their left, holes with their outer
//! ring.
#![tactic(auto)]

mod corners;
mod doubles;
mod edge;
mod fault;
mod nesting;
mod numbering;
mod outline;
mod outlining;
mod place;
mod sewing;
mod splitting;
mod turning;
mod walks;

pub use doubles::nearest;
pub use edge::{BoundaryPiece, Line};
pub use fault::OutlineFault;
pub use outline::{Outline, OutlineRing};
pub use outlining::outline_of;
pub use place::{Place, placed};
pub use sewing::{Border, Pieces};
