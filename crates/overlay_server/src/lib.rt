//! A server over one book: workers, a store and one session a reader, each in a thread of its own.
#![tactic(auto)]

mod hosted;
mod hosting;
pub mod laws;
mod listening;
mod opening;
pub mod outcome;
mod refusing;
pub mod serving;
mod storing;
mod tasks;
mod threads;

pub use opening::BookAnswer;
pub use outcome::{Left, PortsBack, PortsFault, ServeOptions, Served, ServerFault};
pub use overlay_grid::{GridSpec, grid};
pub use script_form::{CommandFault, SessionEnd};
pub use server_session::session_run;
pub use serving::{serve, serve_ports};
pub use store_flushing::closed::{Closed, close};
pub use store_flushing::keeper::flusher_loop;
pub use store_flushing::keeper::report_log::ReportLog;
pub use tile_workers::gate::{Gate, OpenGate};
pub use tile_workers::worker::worker_loop;
