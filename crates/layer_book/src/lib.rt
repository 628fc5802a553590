//! Layers in order of creation, and what commands make of them.
#![tactic(auto)]

pub mod applying;
pub mod applying_all;
pub mod batch;
pub mod batch_fault;
pub mod command;
mod comparing;
pub mod direct_answer;
pub mod fault;
pub mod finding_input;
mod having_input;
pub mod layer;
pub mod layers;
pub mod listing;
mod over;
pub mod question;
pub mod reach;
mod sketch;
pub mod touching;
pub mod wanted_layers;

pub use batch::{BATCH_MAX, Batch};
pub use batch_fault::BatchFault;
pub use command::Command;
pub use direct_answer::Place;
pub use fault::LayerFault;
pub use layer::Layer;
pub use layer_expr::MAX_LAYERS;
pub use layers::Layers;
