//! A session of a book that threads share, from the bytes of a script to the bytes of its replies.
ghost use Rattle.std.specs.Prelude.{◌≡◌, ◌<◌, ◌^◌, ◌⊎◌, Bool, [], false, length, IfOk, IfSome};
ghost use Rattle.overlay_terms.specs.Histories.{BeginsWith, IsHistory};
ghost use Rattle.book_history.specs.Known.{seen};
ghost use Rattle.version_book.specs.Store.{has_store};
ghost use Rattle.script_form.specs.Fault.{code_of};
ghost use Rattle.script_form.specs.Lines.{script_max};
ghost use Rattle.script_form.specs.Replies.{error_line};
ghost use Rattle.server_session.specs.Asking.{MayAskAll, MayAskLast};
ghost use Rattle.server_session.specs.Replying.{IsAtStart, IsPastMost, MayReport};
ghost use Rattle.server_session.specs.Stores.{store_of};
ghost use Rattle.server_session.specs.Session.{IsSessionWithin, Stays};
ghost use Rattle.server_session.specs.SessionState.{has_ended, HasTaken, IsOnWay};
ghost use Rattle.server_session.specs.Loop.{Finishes, EndsBy};

use crate::reply_writer::ReplyWriter;
use crate::session_state::SessionState;
use script_form::{CommandFault, SCRIPT_MAX, SessionEnd, read_chunk};
use std::alloc::{AllocError, Global};
use std::io::{Read, Write};
use std::sync::Wait;
use std::thread::Threads;
use version_book::seen_log::BookName;
use version_book::session::Session;
use version_book::shared::Shared;

/// How many bytes are asked for at once.
const CHUNK: usize = 4096;

/// Runs a script in a book that other threads may change: reads its lines, and writes the reply to each before it asks
/// for more bytes. The room for its lines is had first, and a fault's line takes none: where there is none it fails with
/// 40, and from then on no want of memory ends it.
pub fn session_run<J: BookName, S: Wait + Drop, Q: Wait + Threads + Sync, R: Read, W: Write>(
    rt: &Q,
    alloc: Global,
    shared: &Shared<J, S>,
    me: &mut Session,
    reader: &mut R,
    writer: &mut W,
) -> SessionEnd
    requires book { me.old.book ≡ J.book }
    requires asked { MayAskAll (J.asked me.old.session) (R.remaining reader.old) }
    ensures run { IsSessionWithin script_max (store_of J.stored J.failed (has_store shared.now)) result me.old me.new (R.remaining reader.old)
        (R.remaining reader.new) (W.contents writer.old) (W.contents writer.new) }
    ensures goes_on { BeginsWith (seen me.new) (seen me.old) }
    // Each version that it reports is one of a history.
    ensures history { IsHistory (seen me.new) }
    ensures same { (me.new.book ≡ me.old.book) × (me.new.session ≡ me.old.session) }
{
    session_run_within(rt, alloc, shared, me, SCRIPT_MAX, reader, writer)
}

/// The same, of a script that may have so many bytes.
pub fn session_run_within<
    J: BookName,
    S: Wait + Drop,
    Q: Wait + Threads + Sync,
    R: Read,
    W: ReplyWriter,
>(
    rt: &Q,
    alloc: Global,
    shared: &Shared<J, S>,
    me: &mut Session,
    most: usize,
    reader: &mut R,
    writer: &mut W,
) -> SessionEnd
    requires book { me.old.book ≡ J.book }
    // What the script asks for may be submitted. Of nothing else can this be shown, also in a call that never returns.
    requires asked { MayAskAll (J.asked me.old.session) (R.remaining reader.old) }
    requires countable { most < 2 ^ 63 }
    requires reported { MayReport J.stored J.failed (has_store shared.now) me.old W.may_report }
    requires from { W.from writer.old (has_store shared.now) me.old }
    requires own { IfSome (W.left writer.old) (IsAtStart (R.remaining reader.old)) }
    requires limit { IsPastMost most (R.remaining reader.old) → W.may_pass_limit writer.old }
    ensures run { IsSessionWithin most (store_of J.stored J.failed (has_store shared.now)) result me.old me.new (R.remaining reader.old)
        (R.remaining reader.new) (W.contents writer.old) (W.contents writer.new) }
    ensures goes_on { BeginsWith (seen me.new) (seen me.old) }
    // Each version that it reports is one of a history.
    ensures history { IsHistory (seen me.new) }
    ensures same { (me.new.book ≡ me.old.book) × (me.new.session ≡ me.old.session) }
{
    match rooms(alloc) {
        Ok((mut state, mut chunk)) => {
            let end = run(
                rt,
                alloc,
                shared,
                me,
                most,
                &mut state,
                chunk.as_mut_slice(),
                reader,
                writer,
            );
            // What it has seen is a log with a first entry: a clause rests on that.
            let _ = me.seen_log().at();
            end
        }
        Err(_) => {
            let _ = me.seen_log().at();
            SessionEnd::Failed(40)
        }
    }
}

/// A session that begins, and room for what a read brings.
fn rooms(alloc: Global) -> Result<(SessionState, Vec<u8>), AllocError>
    ensures begun { IfOk result (λ rooms. HasTaken rooms.0 []) }
    ensures going { IfOk result (λ rooms. has_ended rooms.0 ≡ false) }
    ensures chunk { IfOk result (λ rooms. length rooms.1.items ≡ CHUNK) }
{
    let state = SessionState::new(alloc)?;
    let chunk = vec![in alloc; 0; CHUNK]?;
    Ok((state, chunk))
}

/// Reads chunks and answers their lines until the script ends, a read fails (error 48), a reply cannot be written (49),
/// or more bytes came than a script may have (47).
fn run<J: BookName, S: Wait + Drop, Q: Wait + Threads + Sync, R: Read, W: ReplyWriter>(
    rt: &Q,
    alloc: Global,
    shared: &Shared<J, S>,
    me: &mut Session,
    most: usize,
    state: &mut SessionState,
    chunk: &mut [u8],
    reader: &mut R,
    writer: &mut W,
) -> SessionEnd
    requires book { me.old.book ≡ J.book }
    requires asked { MayAskAll (J.asked me.old.session) (R.remaining reader.old) }
    requires begun { HasTaken state.old [] }
    requires going { has_ended state.old ≡ false }
    requires room { 0 < length chunk.old }
    requires countable { most < 2 ^ 63 }
    requires reported { MayReport J.stored J.failed (has_store shared.now) me.old W.may_report }
    requires from { W.from writer.old (has_store shared.now) me.old }
    requires own { IfSome (W.left writer.old) (IsAtStart (R.remaining reader.old)) }
    requires limit { IsPastMost most (R.remaining reader.old) → W.may_pass_limit writer.old }
    ensures run { IsSessionWithin most (store_of J.stored J.failed (has_store shared.now)) result me.old me.new (R.remaining reader.old)
        (R.remaining reader.new) (W.contents writer.old) (W.contents writer.new) }
    ensures stays { Stays me.old me.new }
{
    let mut taken = 0;
    while taken <= most {
        let count = match read_chunk(reader, chunk, taken, most) {
            Err(_) => return end_by(me, CommandFault::Read, writer),
            Ok(0) => return finish(rt, alloc, shared, me, state, writer),
            Ok(count) => count,
        };
        let allowed = count.min(most - taken);
        let reported = state.take(rt, alloc, shared, me, &chunk[..allowed], writer);
        if reported.is_err() {
            return SessionEnd::Failed(49);
        }
        taken += count;
    }
    end_by(me, CommandFault::ReadLimit, writer)
}

/// At the end of the script.
fn finish<J: BookName, S: Wait + Drop, Q: Wait + Threads + Sync, W: ReplyWriter>(
    rt: &Q,
    alloc: Global,
    shared: &Shared<J, S>,
    me: &mut Session,
    state: &mut SessionState,
    writer: &mut W,
) -> SessionEnd
    requires book { me.old.book ≡ J.book }
    requires asked { MayAskLast (J.asked me.old.session) state.old }
    requires going { has_ended state.old ≡ false }
    requires reported { MayReport J.stored J.failed (has_store shared.now) me.old W.may_report }
    requires from { W.from writer.old (has_store shared.now) me.old }
    requires own { IfSome (W.left writer.old) (IsOnWay state.old []) }
    ensures finishes { Finishes (store_of J.stored J.failed (has_store shared.now)) result state.old me.old me.new (W.contents writer.old)
        (W.contents writer.new) }
    ensures stays { Stays me.old me.new }
{
    match state.finish(rt, alloc, shared, me, writer) {
        Ok(()) => SessionEnd::End,
        Err(_) => SessionEnd::Failed(49),
    }
}

/// Writes the line of the fault that ends the session.
fn end_by<W: ReplyWriter>(me: &Session, fault: CommandFault, writer: &mut W) -> SessionEnd
    requires fault { (fault ≡ CommandFault.Read) ⊎ ((fault ≡ CommandFault.ReadLimit) × W.may_pass_limit writer.old) }
    requires from { (there : Bool) × W.from writer.old there me.now }
    ensures ends { EndsBy result (code_of fault) (error_line fault) (W.contents writer.old) (W.contents writer.new) }
{
    match writer.end(me, fault) {
        Ok(()) => SessionEnd::Failed(fault.code()),
        Err(_) => SessionEnd::Failed(49),
    }
}
