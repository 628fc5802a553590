//! Pictures of layers: the answer at each point of a grid, straight from the segments.
#![tactic(auto)]

mod columns;
pub mod drawing;
pub mod fault;
pub mod grid_spec;
mod marking;
mod passing;
mod rising;
mod rows;

pub use drawing::grid;
pub use fault::GridFault;
pub use grid_spec::GridSpec;
