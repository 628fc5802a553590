//! The area that pieces of a boundary enclose, the same to the bit wherever they are cut.
#![tactic(auto)]

mod area;
mod laws;
mod line;
mod piece;
mod places;
mod sweeping;

pub use area::swept_area;
pub use laws::{area_is_near, cuts_add_up, mark_is_of_line, sides_cancel, whole_is_exact};
pub use piece::{Shift, SidedPiece};
pub use sweeping::swept;
