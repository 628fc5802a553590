//! Names, expressions over layers, and lists of definitions.
#![tactic(auto)]

pub mod expr;
pub mod fault;
pub mod laws;
mod lexeme;
pub mod name;
pub mod name_key;
mod reader;
pub mod reading;
pub mod step_list;
pub mod step_value;
pub mod steps;
pub mod writing;

pub use expr::{Expr, Node, Operation};
pub use fault::ExprFault;
pub use name::{NAME_MAX, Name};
pub use reading::read_expr;
pub use step_list::StepList;
pub use steps::MAX_LAYERS;
pub use writing::write_expr;
