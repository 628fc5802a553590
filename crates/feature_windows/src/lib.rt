//! Features of a block within a core: halved into windows that one pass each can take, the boundary pieces of an expression
//! there, and the area that they enclose.
#![tactic(auto)]

mod boxes;
mod fault;
mod features;
mod finding;
mod found;
mod halving;
mod laws;
mod layers;
mod rings;
mod sides;
mod window;

pub use boxes::{around, common, is_nothing, is_within, meet, nothing};
pub use fault::WindowsFault;
pub use features::Features;
pub use finding::pieces_in;
pub use found::{Found, found_in, found_in_one};
pub use halving::windows;
pub use laws::{border_is_core, pieces_are_of_features, windows_add_up};
pub use rings::{Rings, parted};
pub use window::{Near, Window};
