//! Rows that answer jobs, written one after another in the jobs' order.
#![tactic(auto)]

mod answering;
mod fault;
mod writing;

pub use answering::Answering;
pub use fault::RowFault;
pub use writing::write_rows;
