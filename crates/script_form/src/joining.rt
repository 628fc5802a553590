//! Lines that come to a batch, one after another: the first that cannot be read is kept by its place, from 0.
ghost use Rattle.std.specs.Prelude.{◌≡◌, ◌∷◌, [], ◌⊎◌, ◌+◌, ◌≤◌, ◌==◌, length, map, IfOk, IfErr, IfSome};
ghost use Rattle.overlay_terms.specs.Batches.{IsSized};
ghost use Rattle.layer_book.specs.Command.{command};
ghost use Rattle.script_form.specs.BatchLines.{IsCommandOf, IsNoCommand};
ghost use Rattle.script_form.specs.Fault.{code_of};
ghost use Rattle.script_form.specs.OpenBatch.{IsOpen, Joins, ReadsAll, ReadsAfter, ReadsNext, unread};
ghost use Rattle.script_form.specs.Requests.{batch, request};
ghost use Rattle.script_form.specs.Turns.{asked_size, begun_by, size_within};

use crate::fault::CommandFault;
use crate::open_batch::{LinesFault, OpenBatch};
use crate::reading::{read_define, read_put, read_remove};
use crate::request::Request;
use layer_book::batch::{BATCH_MAX, Batch};
use layer_book::command::Command;
use std::alloc::Global;

/// What a line of a batch makes of it.
pub(crate) enum Joined {
    Waits(OpenBatch),
    /// All lines came.
    Whole(Result<Batch, LinesFault>),
}

impl OpenBatch {
    /// A batch of so many lines, if a batch may have so many. The room for its commands is had now. Where there is
    /// none, it waits for its lines all the same.
    pub(crate) fn new(alloc: Global, size: i64) -> Option<OpenBatch>
        ensures { IsOpen (begun_by (batch size)) result }
    {
        match batch_size(size) {
            Some(size) => Some(OpenBatch {
                size,
                came: 0,
                read: room(alloc),
            }),
            None => None,
        }
    }

    /// Takes a line of the batch.
    pub(crate) fn join(self, alloc: Global, asked: Request<'_>) -> Joined
        ensures { Joins self (request asked.entry) result }
    {
        let read = read_next(alloc, self.read, self.came, asked);
        let came = self.came + 1;
        if came == self.size {
            return Joined::Whole(as_batch(read));
        }
        Joined::Waits(OpenBatch {
            size: self.size,
            came,
            read,
        })
    }
}

/// How many commands a batch has, if a batch may have so many.
fn batch_size(size: i64) -> Option<u32>
    ensures value { result ≡ asked_size size }
    ensures within { IfSome result (λ n. (1 ≤ n) × (n ≤ 64)) }
{
    if size < 0 {
        return None;
    }
    size_within(size as u64)
}

fn size_within(size: u64) -> Option<u32>
    ensures value { result ≡ size_within size }
    ensures within { IfSome result (λ n. (1 ≤ n) × (n ≤ 64)) }
{
    if size < 1 {
        return None;
    }
    if size > BATCH_MAX as u64 {
        return None;
    }
    Some(size as u32)
}

/// Room for the commands of any batch.
fn room(alloc: Global) -> Result<Vec<Command>, LinesFault>
    ensures ok { IfOk result (λ commands. commands.items ≡ []) }
    ensures err { IfErr result (λ fault. fault ≡ LinesFault.OutOfMemory) }
{
    match Vec::with_capacity(alloc, BATCH_MAX) {
        Ok(commands) => Ok(commands),
        Err(_) => Err(LinesFault::OutOfMemory),
    }
}

/// The commands with that of one line more.
fn read_next(
    alloc: Global,
    read: Result<Vec<Command>, LinesFault>,
    place: u32,
    asked: Request<'_>,
) -> Result<Vec<Command>, LinesFault>
    requires { IfOk read (λ commands. length commands.items ≡ place) }
    ensures reads { ReadsNext read (request asked.entry) result }
    ensures counted { IfOk result (λ commands. length commands.items ≡ place + 1) }
{
    match read {
        Ok(commands) => push_next(alloc, commands, place, asked),
        Err(fault) => Err(fault),
    }
}

fn push_next(
    alloc: Global,
    mut commands: Vec<Command>,
    place: u32,
    asked: Request<'_>,
) -> Result<Vec<Command>, LinesFault>
    requires { length commands.items ≡ place }
    ensures reads { ReadsAfter (map command commands.items) (request asked.entry) result }
    ensures counted { IfOk result (λ commands. length commands.items ≡ place + 1) }
{
    match read_command(alloc, asked) {
        Ok(change) => match commands.push(change) {
            Ok(()) => Ok(commands),
            Err(_) => Err(LinesFault::OutOfMemory),
        },
        Err(fault) => Err(unread(place, fault)),
    }
}

/// Why a line is no command.
fn unread(place: u32, fault: CommandFault) -> LinesFault
    ensures { result ≡ unread (code_of fault == 40) place fault }
{
    if fault.code() == 40 {
        LinesFault::OutOfMemory
    } else {
        LinesFault::Unread(place, fault)
    }
}

/// The command that a line of a batch asks for.
fn read_command(alloc: Global, asked: Request<'_>) -> Result<Command, CommandFault>
    ensures ok { IfOk result (λ change. IsCommandOf (request asked.entry) (command change)) }
    ensures refused { IfErr result (λ fault. (code_of fault ≡ 40) ⊎ IsNoCommand (request asked.entry) fault) }
{
    match asked {
        Request::Put(name, text) => read_put(alloc, name, text),
        Request::Define(name, text) => read_define(alloc, name, text),
        Request::Remove(name) => read_remove(alloc, name),
        Request::TooLong => Err(CommandFault::LineTooLong),
        _ => Err(CommandFault::CommandSyntax),
    }
}

/// The commands of all lines as a batch.
fn as_batch(read: Result<Vec<Command>, LinesFault>) -> Result<Batch, LinesFault>
    requires { IfOk read (λ commands. IsSized (map command commands.items)) }
    ensures { ReadsAll read result }
{
    match read {
        Ok(commands) => match Batch::new(commands) {
            Ok(batch) => Ok(batch),
            Err(_) => unreachable!(),
        },
        Err(fault) => Err(fault),
    }
}
