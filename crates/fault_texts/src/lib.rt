//! The texts of faults, in pieces, and the faults that several crates report.
#![tactic(auto)]

pub mod common_fault;
pub mod fault_text;

pub use common_fault::CommonFault;
pub use fault_text::FaultText;
