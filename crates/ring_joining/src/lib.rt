//! Directed pieces of a boundary put together to closed rings, by the numbers of their ends.
#![tactic(auto)]

mod ending;
mod fault;
mod following;
mod joining;
mod piece;
mod ring;

pub use fault::JoinFault;
pub use following::{outline, successors};
pub use joining::join;
pub use piece::NumberedPiece;
pub use ring::PieceRing;
