//! Points of the plane with exact fractions as coordinates.
#![tactic(auto)]

mod arithmetic;
pub mod crossing;
pub mod fault;
pub mod middle;
pub mod near_point;
pub mod order;
pub mod point;
pub mod point_name;
pub mod query;
pub mod reducing;
pub mod side;

pub use arithmetic::{minus, whole_cross};
pub use crossing::{cross_of, direction_cmp};
pub use fault::PointFault;
pub use middle::below_middle;
pub use near_point::{NearPoint, near_cross_of};
pub use point::HPoint;
pub use point_name::PointName;
pub use query::QueryPoint;
pub use reducing::{reduced, reduced_cut};
pub use side::{below, border_side, end_side, is_in, on, x_cmp};
