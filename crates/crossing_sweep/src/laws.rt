//! Laws that a pass rests on: each function does nothing, and its contract is the law.

pub mod last_node;
pub mod leaning;
pub mod next_node;
pub mod passing;
pub mod queue;
pub mod rows;
pub mod sides;
pub mod status;
pub mod step;
pub mod units;
