//! Jobs over features: pairs, cells of an expression, points to locate; outlines; and a block's reply.
#![tactic(auto)]

mod bytes;
mod cells;
mod corner_areas;
mod dealing;
mod expressions;
mod fault;
mod ground;
mod known;
mod meeting;
mod outlining;
mod pair;
mod points;
mod relation;
mod reply;
mod rings;
mod running;
mod simple_rings;
mod steps;
mod text;

pub use fault::JobFault;
pub use reply::Reply;
pub use running::{answer, refusal, too_long};
