//! Blocks of features and jobs over them, as bytes.
#![tactic(auto)]

mod block;
mod fault;
mod head;
mod heading;
mod job;
mod jobs_in;
mod known;
mod numbers;
mod shape;
mod shapes_in;

pub use block::{Block, read_block};
pub use fault::{BlockFault, ReadFault};
pub use head::Head;
pub use job::{Core, FarFraction, Job, Member, Members, Queries};
pub use shape::{FarPoint, Shapes};
