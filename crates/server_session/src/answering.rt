//! The answer to one line.
ghost use Rattle.std.specs.Prelude.{◌≡◌, [], ◌∷◌, IfOk, IfErr, IfSome};
ghost use Rattle.std.specs.Arc.{arc_value};
ghost use Rattle.overlay_terms.specs.Histories.{newest, IsHistory};
ghost use Rattle.book_history.specs.Known.{seen};
ghost use Rattle.layer_book.specs.Command.{command};
ghost use Rattle.script_form.specs.Replies.{reply_text};
ghost use Rattle.script_form.specs.Requests.{request, put_text, define_text, remove_name, locate, grid, list_layers, edges, wait, verify, sync};
ghost use Rattle.script_form.specs.Transcript.{asked_column};
ghost use Rattle.server_session.specs.Stores.{no_store, store_of};
ghost use Rattle.server_session.specs.Answering.{Answers, Submits, result_text};
ghost use Rattle.server_session.specs.Asking.{MayAskAlone, MayAskAtLine};
ghost use Rattle.server_session.specs.Replying.{IsReplySince};
ghost use Rattle.server_session.specs.Session.{Stays};
ghost use Rattle.server_session.specs.Turn.{EndsTurn, TakesTurn, fault_text};
ghost use Rattle.version_book.specs.Store.{has_store};

use crate::answering_all::answer_batch;
use crate::fault::command_fault;
use exact_point::QueryPoint;
use layer_book::command::Command;
use layer_book::fault::LayerFault;
use overlay_grid::{GridSpec, grid};
use plane_base::Column;
use script_form::{
    CommandFault, LineReply, LineTurn, OpenBatch, Request, read_define, read_name, read_put,
    read_remove, take_line,
};
use std::alloc::Global;
use std::sync::{Arc, Wait};
use std::thread::Threads;
use version_book::seen_log::BookName;
use version_book::session::Session;
use version_book::shared::Shared;
use version_core::Answers;
use versions::{Version, VersionFault};

/// What a line makes of the book, of the session and of the batch that waits for lines, and the reply to the turn that
/// it ends, if it ends one. A line that is too long may be handed in cut off after its first 65,537 bytes.
pub fn answer<J: BookName, S: Wait + Drop, Q: Wait + Threads + Sync>(
    rt: &Q,
    alloc: Global,
    shared: &Shared<J, S>,
    me: &mut Session,
    waiting: &mut Option<OpenBatch>,
    line: &[u8],
) -> Option<LineReply>
    requires book { me.old.book ≡ J.book }
    // What the line asks for may be submitted. Of nothing else can this be shown, also in a call that never returns.
    requires asked { MayAskAtLine (J.asked me.old.session) waiting.old line.now }
    ensures takes { TakesTurn (store_of J.stored J.failed (has_store shared.now)) me.old waiting.old line.now me.new waiting.new (fault_text result) }
    ensures ends { EndsTurn waiting.old line.now me.old me.new result }
    // So much is owed before it is written, wherever in a script.
    ensures right { IfSome result (λ reply. IsReplySince (store_of J.stored J.failed (has_store shared.now)) me.old me.new (reply_text reply)) }
{
    match take_line(alloc, waiting, line) {
        LineTurn::Waits => None,
        LineTurn::Alone(asked) => Some(answer_alone(rt, alloc, shared, me, asked)),
        LineTurn::Whole(read) => Some(answer_batch(rt, alloc, shared, me, read)),
    }
}

/// The reply to a line that is in no batch.
fn answer_alone<J: BookName, S: Wait + Drop, Q: Wait + Threads + Sync>(
    rt: &Q,
    alloc: Global,
    shared: &Shared<J, S>,
    me: &mut Session,
    asked: Request<'_>,
) -> LineReply
    requires book { me.old.book ≡ J.book }
    requires asked { MayAskAlone (J.asked me.old.session) (request asked) }
    ensures { Answers (store_of J.stored J.failed (has_store shared.now)) me.old (request asked.entry) me.new (reply_text result) }
{
    match answer_request(rt, alloc, shared, me, asked) {
        Ok(reply) => reply,
        Err(fault) => LineReply::Fault(fault),
    }
}

#[tactic(auto, using(crate::proofs::Anywhere::asked))]
fn answer_request<J: BookName, S: Wait + Drop, Q: Wait + Threads + Sync>(
    rt: &Q,
    alloc: Global,
    shared: &Shared<J, S>,
    me: &mut Session,
    asked: Request<'_>,
) -> Result<LineReply, CommandFault>
    requires book { me.old.book ≡ J.book }
    requires asked { MayAskAlone (J.asked me.old.session) (request asked) }
    ensures { Answers (store_of J.stored J.failed (has_store shared.now)) me.old (request asked.entry) me.new (result_text result) }
{
    match asked {
        Request::Nothing => Ok(LineReply::Nothing),
        Request::TooLong => Err(CommandFault::LineTooLong),
        Request::Malformed => Err(CommandFault::CommandSyntax),
        Request::Put(name, text) => answer_put(rt, alloc, shared, me, name, text),
        Request::Define(name, text) => answer_define(rt, alloc, shared, me, name, text),
        Request::Remove(name) => answer_remove(rt, alloc, shared, me, name),
        Request::Locate(name, x, y, w) => answer_locate(alloc, me, name, x, y, w),
        Request::Grid(name, x, y, step, nx, ny) => {
            answer_grid(rt, alloc, me, name, x, y, step, nx, ny)
        }
        Request::ListLayers => answer_list(alloc, me),
        Request::Edges(name, number) => answer_edges(alloc, me, name, number),
        Request::Wait(name) => answer_wait(rt, alloc, shared, me, name),
        Request::Verify(name, number) => answer_verify(alloc, me, name, number),
        Request::Sync => answer_sync(rt, shared, me),
        // A batch that has lines is not asked for here: the size is wrong.
        Request::Batch(_) => Err(CommandFault::Version(VersionFault::Layer(LayerFault::BatchSize))),
    }
}

fn answer_put<J: BookName, S: Wait + Drop, Q: Wait>(
    rt: &Q,
    alloc: Global,
    shared: &Shared<J, S>,
    me: &mut Session,
    name: &[u8],
    text: &[u8],
) -> Result<LineReply, CommandFault>
    requires book { me.old.book ≡ J.book }
    requires asked { MayAskAlone (J.asked me.old.session) (put_text name.now text.now) }
    ensures { Answers (store_of J.stored J.failed (has_store shared.now)) me.old (put_text name.now text.now) me.new (result_text result) }
{
    let change = read_put(alloc, name, text)?;
    submit(rt, alloc, shared, me, &change)
}

fn answer_define<J: BookName, S: Wait + Drop, Q: Wait>(
    rt: &Q,
    alloc: Global,
    shared: &Shared<J, S>,
    me: &mut Session,
    name: &[u8],
    text: &[u8],
) -> Result<LineReply, CommandFault>
    requires book { me.old.book ≡ J.book }
    requires asked { MayAskAlone (J.asked me.old.session) (define_text name.now text.now) }
    ensures { Answers (store_of J.stored J.failed (has_store shared.now)) me.old (define_text name.now text.now) me.new (result_text result) }
{
    let change = read_define(alloc, name, text)?;
    submit(rt, alloc, shared, me, &change)
}

fn answer_remove<J: BookName, S: Wait + Drop, Q: Wait>(
    rt: &Q,
    alloc: Global,
    shared: &Shared<J, S>,
    me: &mut Session,
    name: &[u8],
) -> Result<LineReply, CommandFault>
    requires book { me.old.book ≡ J.book }
    requires asked { MayAskAlone (J.asked me.old.session) (remove_name name.now) }
    ensures { Answers (store_of J.stored J.failed (has_store shared.now)) me.old (remove_name name.now) me.new (result_text result) }
{
    let change = read_remove(alloc, name)?;
    submit(rt, alloc, shared, me, &change)
}

/// The reply to a command.
fn submit<J: BookName, S: Wait + Drop, Q: Wait>(
    rt: &Q,
    alloc: Global,
    shared: &Shared<J, S>,
    me: &mut Session,
    change: &Command,
) -> Result<LineReply, CommandFault>
    requires book { me.old.book ≡ J.book }
    requires asked { J.asked me.old.session (command change.now ∷ []) }
    ensures { Submits me.old (command change.now) me.new (result_text result) }
{
    match shared.submit(rt, alloc, me, change) {
        Ok(number) => Ok(LineReply::Accepted(number)),
        Err(fault) => Err(command_fault(fault)),
    }
}

/// The newest version that the book shows. It waits for nobody.
fn look(me: &mut Session) -> Result<Arc<Version, Global>, CommandFault>
    ensures stays { Stays me.old me.new }
    ensures newest { IfOk result (λ version. arc_value version ≡ newest (seen me.new)) }
    ensures history { IfOk result (λ _. IsHistory (seen me.new)) }
    ensures made { me.new.made ≡ me.old.made }
    ensures err { IfErr result (λ fault. fault ≡ CommandFault.Gone) }
{
    match me.snapshot() {
        Ok(version) => Ok(version),
        Err(_) => Err(CommandFault::Gone),
    }
}

/// Where a point lies. It takes no memory.
fn answer_locate(
    alloc: Global,
    me: &mut Session,
    name: &[u8],
    x: i64,
    y: i64,
    w: i64,
) -> Result<LineReply, CommandFault>
    ensures { Answers no_store me.old (locate name.now x y w) me.new (result_text result) }
{
    let name = read_name(alloc, name)?;
    let query = QueryPoint::new(x, y, w)?;
    let version = look(me)?;
    let place = version.locate(&name, &query)?;
    Ok(LineReply::Located(place))
}

/// The picture of a layer, in threads by the number of processors. Its sizes (error 45) are looked at before the book.
fn answer_grid<Q: Threads + Sync>(
    rt: &Q,
    alloc: Global,
    me: &mut Session,
    name: &[u8],
    x: i64,
    y: i64,
    step: i64,
    nx: i64,
    ny: i64,
) -> Result<LineReply, CommandFault>
    ensures { Answers no_store me.old (grid name.now x y step nx ny) me.new (result_text result) }
{
    let name = read_name(alloc, name)?;
    let points = GridSpec::new(x, y, step, nx, ny)?;
    let version = look(me)?;
    let picture = grid(rt, alloc, &version, &name, &points)?;
    Ok(LineReply::Lines(picture))
}

fn answer_list(alloc: Global, me: &mut Session) -> Result<LineReply, CommandFault>
    ensures { Answers no_store me.old list_layers me.new (result_text result) }
{
    let version = look(me)?;
    Ok(LineReply::Lines(version.layers().list(alloc)?))
}

/// The pieces of a tile.
fn answer_edges(
    alloc: Global,
    me: &mut Session,
    name: &[u8],
    number: i64,
) -> Result<LineReply, CommandFault>
    ensures { Answers no_store me.old (edges name.now number) me.new (result_text result) }
{
    let name = read_name(alloc, name)?;
    let version = look(me)?;
    let lines = version.edges_in(alloc, &name, asked_column(number))?;
    Ok(LineReply::Lines(lines))
}

/// Waits until the tiles of a layer are built.
fn answer_wait<J: BookName, S: Wait + Drop, Q: Wait>(
    rt: &Q,
    alloc: Global,
    shared: &Shared<J, S>,
    me: &mut Session,
    name: &[u8],
) -> Result<LineReply, CommandFault>
    requires { me.old.book ≡ J.book }
    ensures { Answers (store_of J.stored J.failed (has_store shared.now)) me.old (wait name.now) me.new (result_text result) }
{
    let name = read_name(alloc, name)?;
    match shared.wait_built(rt, me, &name) {
        Ok(number) => Ok(LineReply::Built(number)),
        Err(fault) => Err(command_fault(fault)),
    }
}

/// Compares a tile with one that is built anew.
fn answer_verify(
    alloc: Global,
    me: &mut Session,
    name: &[u8],
    number: i64,
) -> Result<LineReply, CommandFault>
    ensures { Answers no_store me.old (verify name.now number) me.new (result_text result) }
{
    let name = read_name(alloc, name)?;
    let version = look(me)?;
    let verdict = version.verify_in(alloc, &name, asked_column(number))?;
    Ok(LineReply::Compared(verdict))
}

/// Waits until the newest version that the session has seen is durable.
fn answer_sync<J: BookName, S: Wait + Drop, Q: Wait>(
    rt: &Q,
    shared: &Shared<J, S>,
    me: &mut Session,
) -> Result<LineReply, CommandFault>
    requires { me.old.book ≡ J.book }
    ensures { Answers (store_of J.stored J.failed (has_store shared.now)) me.old sync me.new (result_text result) }
{
    match shared.wait_durable(rt, me) {
        Ok(number) => Ok(LineReply::Durable(number)),
        Err(fault) => Err(command_fault(fault)),
    }
}

/// The column that was asked for, if there is one. None has a number below 0.
fn asked_column(number: i64) -> Option<Column>
    ensures { result ≡ asked_column number }
{
    if number < 0 {
        return None;
    }
    Column::new(number as u64)
}
