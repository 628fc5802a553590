//! Well-Known Text of polygons, read and written.
#![tactic(auto)]

mod coordinate;
pub mod fault;
pub mod laws;
mod number;
mod plain_point;
mod point;
mod reader;
pub mod reading;
mod state;
mod token;
pub mod writing;

pub use fault::WktFault;
pub use reading::read_wkt;
pub use writing::write_wkt;
