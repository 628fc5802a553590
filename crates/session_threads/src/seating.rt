//! Which session runs which reader's script.
ghost use Rattle.std.specs.Prelude.{◌≡◌, length, map, IfSome, IfOk, IfErr};
ghost use Rattle.session_threads.specs.Rooms.{HasRoom, IsReserved};
ghost use Rattle.session_threads.specs.Seats.{port_of, session_of};

use crate::port::Port;
use crate::running::{Script, Seats};
use server_session::reply_writer::ReplyWriter;
use std::alloc::Global;
use std::io::Read;
use version_book::seen_log::BookName;
use version_book::session::Session;

/// Gives each reader's script the session of its place, and takes the memory for the lists that are filled later. The
/// ports come back as they were where memory is refused.
pub fn seated<J: BookName, R: Read + Drop, W: ReplyWriter + Drop>(
    alloc: Global,
    sessions: Vec<Session>,
    ports: Vec<Port<R, W>>,
) -> Result<Seats<J, R, W>, Vec<Port<R, W>>>
    requires { length sessions.items ≡ length ports.items }
    ensures sessions { IfOk result (λ seats. map session_of seats.scripts.items ≡ sessions.items) }
    ensures ports { IfOk result (λ seats. map port_of seats.scripts.items ≡ ports.items) }
    ensures room { IfOk result (λ seats. HasRoom seats (length ports.items)) }
    ensures refused { IfErr result (λ back. back ≡ ports) }
{
    match empty_seats::<J, R, W>(alloc, ports.len()) {
        Some(
            Seats {
                scripts,
                running,
                sessions: ended,
                finished,
            },
        ) => Ok(Seats {
            scripts: seat_all(scripts, sessions, ports),
            running,
            sessions: ended,
            finished,
        }),
        None => Err(ports),
    }
}

/// No script, with room for so many and for what they leave. None comes where memory is refused.
fn empty_seats<J: BookName, R: Read + Drop, W: ReplyWriter + Drop>(
    alloc: Global,
    count: usize,
) -> Option<Seats<J, R, W>>
    ensures scripts { IfSome result (λ seats. IsReserved seats.scripts count) }
    ensures room { IfSome result (λ seats. HasRoom seats count) }
{
    let scripts = room(alloc, count)?;
    let running = room(alloc, count)?;
    let sessions = room(alloc, count)?;
    let finished = room(alloc, count)?;
    Some(Seats {
        scripts,
        running,
        sessions,
        finished,
    })
}

/// An empty list with room for so many.
fn room<T>(alloc: Global, count: usize) -> Option<Vec<T>>
    ensures { IfSome result (λ list. IsReserved list count) }
{
    Vec::with_capacity(alloc, count).ok()
}

/// Puts the readers' scripts into a list that has room for them, each with its session, in their order.
fn seat_all<R: Drop, W: Drop>(
    mut scripts: Vec<Script<R, W>>,
    sessions: Vec<Session>,
    ports: Vec<Port<R, W>>,
) -> Vec<Script<R, W>>
    requires room { IsReserved scripts (length ports.items) }
    requires as_many { length sessions.items ≡ length ports.items }
    ensures sessions { map session_of result.items ≡ sessions.items }
    ensures ports { map port_of result.items ≡ ports.items }
{
    let mut ports = ports.into_iter();
    for session in sessions {
        let Some(port) = ports.next() else {
            unreachable!()
        };
        scripts.push_reserved(Script { session, port });
    }
    scripts
}
