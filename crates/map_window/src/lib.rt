//! Windows of maps of any size: what is seen of rings of 64-bit whole points from within a box, as a base layer.
#![tactic(auto)]

mod drawing;
pub mod far;
pub mod fault;
mod fitting;
pub mod window;

pub use far::{FarBox, FarPt, FarRing};
pub use fault::WindowFault;
pub use window::windowed;
