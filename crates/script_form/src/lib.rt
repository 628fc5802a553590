//! Scripts: their lines, what each asks for, and the replies as bytes.
#![tactic(auto)]

mod arguments;
pub mod fault;
mod fault_text;
mod joining;
pub mod laws;
pub mod line_buffer;
pub mod line_reply;
pub mod line_turn;
mod number;
pub mod open_batch;
pub mod reading;
pub mod reply_bytes;
pub mod request;
pub mod script_reader;
pub mod session_end;
mod words;

pub use fault::CommandFault;
pub use line_buffer::LineBuffer;
pub use line_reply::{LineReply, write_reply};
pub use line_turn::{LineTurn, take_line};
pub use open_batch::{LinesFault, OpenBatch};
pub use reading::{read_define, read_name, read_put, read_remove};
pub use request::{LINE_MAX, Request, request_of};
pub use script_reader::{SCRIPT_MAX, read_chunk};
pub use session_end::SessionEnd;
