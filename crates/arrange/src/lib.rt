//! The arrangement of the segments of one column: units, nodes and elementary pieces.
#![tactic(auto)]

pub mod closed_column;
pub mod finding_nodes;
pub mod finding_pieces;
pub mod finding_units;
mod line_end;
mod line_seg;
pub mod marked_seg;
mod masking;
pub mod named_place;
mod node_test;
mod passed_ends;
pub mod piece;
mod placed_piece;
pub mod tile_input;
pub mod unit;

pub use closed_column::is_up_to;
pub use finding_nodes::nodes_on;
pub use finding_pieces::pieces;
pub use finding_units::{units, units_of};
pub use marked_seg::MarkedSeg;
pub use named_place::NamedPlace;
pub use piece::Elementary;
pub use tile_input::{TileInput, touches};
pub use unit::Unit;
