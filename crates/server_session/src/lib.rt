//! A session of a book that threads share: the answer to a line, a session on its way, and a run from the bytes of a
//! script to those of its replies.
#![tactic(auto)]

pub mod answering;
mod answering_all;
mod fault;
pub mod reply_writer;
pub mod session;
pub mod session_state;

pub use reply_writer::ReplyWriter;
pub use session::{session_run, session_run_within};
pub use session_state::SessionState;
