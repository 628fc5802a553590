//! What is drawn of a feature's rings within a core: segments of the plane, straight into the list of a pass.
#![tactic(auto)]

pub mod core_box;
pub mod drawing;
mod drawing_border;
mod drawing_rings;
mod reducing;
mod sides;
mod step;

pub use core_box::NearCore;
pub use drawing::Drawing;
pub use drawing_border::draw_border;
pub use drawing_rings::{draw, draw_feature};
pub use reducing::reduced;
