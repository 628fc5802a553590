//! Steps by their texts, and what tests share.
use disk_model::disk::Disk;
use disk_model::image::Choice;
use disk_model::mem_disk::{Call, MemDisk};
use layer_book::batch::Batch;
use layer_book::command::Command;
use layer_expr::name::Name;
use layer_expr::reading::read_expr;
use overlay_engine::step::{Reply, Step};
use std::alloc::Global;
use std::process::Abort;
use std::sync::Arc;
use std::test::Fail;
use test_machines::machine::Machine;
use wkt_form::reading::read_wkt;

pub const SQUARE: &str = "POLYGON ((0 0, 10 0, 10 10, 0 10, 0 0))";

pub const SHIFTED: &str = "POLYGON ((5 5, 15 5, 15 15, 5 15, 5 5))";

pub const SMALLER: &str = "POLYGON ((0 0, 9 0, 9 9, 0 9, 0 0))";

/// What a crash makes of the bytes that are written and not synced.
pub const CHOICES: [Choice; 5] = [
    Choice::Old,
    Choice::New,
    Choice::Fill(0),
    Choice::Fill(0x55),
    Choice::Fill(0xA7),
];

/// How many blocks a file of the tests may have where no other number is asked for.
pub const BLOCKS: u32 = 100;

/// How many device calls make a new store.
pub const CREATED: usize = 5;

/// A step in words: a layer with its text, one with its definition, a layer with a column, and so on.
#[derive(Clone, Copy)]
pub enum Words {
    Put(&'static str, &'static str),
    Define(&'static str, &'static str),
    Drop(&'static str),
    /// A batch of two commands: a layer and its text, and another. One without a text is dropped.
    Both(&'static str, &'static str, &'static str, &'static str),
    Take(&'static str, u8),
    Finish(u32),
    Device,
    Report,
}

/// The command that puts a text under a name.
fn put(alloc: Global, name: Name, text: &str) -> Result<Command, Fail> {
    let rings = read_wkt(alloc, text.as_bytes())?;
    Ok(Command::Put(name, Arc::new(alloc, rings)?))
}

/// The command that defines a name by a text.
fn define(alloc: Global, name: Name, text: &str) -> Result<Command, Fail> {
    let expression = read_expr(alloc, text.as_bytes())?;
    Ok(Command::Define(name, Arc::new(alloc, expression)?))
}

/// The batch that puts layers with a text, and drops those without one.
fn batch_of(alloc: Global, list: &[(&str, &str)]) -> Result<Batch, Fail> {
    let mut commands = Vec::new(alloc);
    for &(name, text) in list {
        let name = name_of(alloc, name)?;
        if text.is_empty() {
            commands.push(Command::Remove(name))?;
        } else {
            commands.push(put(alloc, name, text)?)?;
        }
    }
    Ok(Batch::new(commands)?)
}

fn name_of(alloc: Global, name: &str) -> Result<Name, Fail> {
    Ok(Name::new(alloc, name.as_bytes())?)
}

fn step_of(alloc: Global, words: Words) -> Result<Step, Fail> {
    match words {
        Words::Put(name, text) => Ok(Step::Submit(put(alloc, name_of(alloc, name)?, text)?)),
        Words::Define(name, text) => Ok(Step::Submit(define(alloc, name_of(alloc, name)?, text)?)),
        Words::Drop(name) => Ok(Step::Submit(Command::Remove(name_of(alloc, name)?))),
        Words::Both(first, text, second, other) => Ok(Step::SubmitAll(batch_of(
            alloc,
            &[(first, text), (second, other)],
        )?)),
        Words::Take(name, column) => Ok(Step::Take(name_of(alloc, name)?, column)),
        Words::Finish(number) => Ok(Step::Finish(number)),
        Words::Device => Ok(Step::Device),
        Words::Report => Ok(Step::Report),
    }
}

/// The steps in turn.
fn steps_of(alloc: Global, list: &[Words]) -> Result<Vec<Step>, Fail> {
    let mut steps = Vec::new(alloc);
    for &words in list {
        steps.push(step_of(alloc, words)?)?;
    }
    Ok(steps)
}

/// Makes the steps of these words in an engine, one after the other, and gives the answers.
pub fn drive<D: Disk>(
    alloc: Global,
    engine: &mut Machine<D>,
    list: &[Words],
) -> Result<Vec<Reply>, Fail> {
    let steps = steps_of(alloc, list)?;
    Ok(engine.drive(alloc, &steps)?)
}

/// Puts the square A in an engine, makes so many device calls after it, and gives the answers.
pub fn put_square<D: Disk>(
    alloc: Global,
    engine: &mut Machine<D>,
    calls: usize,
) -> Result<Vec<Reply>, Fail> {
    let square = put(alloc, name_of(alloc, "A")?, SQUARE)?;
    let mut steps = Vec::new(alloc);
    steps.push(Step::Submit(square))?;
    for _ in 0..calls {
        steps.push(Step::Device)?;
    }
    Ok(engine.drive(alloc, &steps)?)
}

/// Makes a step that is accepted as a version, and the device calls of its commit: each goes on but the last, which is
/// done.
pub fn check_commit(
    rt: &impl Abort,
    alloc: Global,
    engine: &mut Machine<MemDisk>,
    step: Words,
    calls: usize,
    number: u64,
) -> Result<(), Fail> {
    let accepted = drive(alloc, engine, &[step])?;
    assert!(rt; accepted.as_slice() == [Reply::Accepted(number)].as_slice());
    let steps = vec![in alloc; Words::Device; calls]?;
    let replies = drive(alloc, engine, &steps)?;
    check_calls(rt, &replies, calls, number);
    Ok(())
}

/// Checks that so many device calls commit a version.
fn check_calls(rt: &impl Abort, replies: &[Reply], calls: usize, number: u64) {
    assert!(rt; replies.len() == calls);
    let Some((last, others)) = replies.split_last() else {
        panic!(rt; "no call");
    };
    assert!(rt; *last == Reply::Done(number));
    for (place, reply) in others.iter().enumerate() {
        assert!(rt; *reply == Reply::Going, "call {place}");
    }
}

/// A disk with these bytes, of which no call is counted.
pub fn disk_of(alloc: Global, bytes: &[u8]) -> Result<MemDisk, Fail> {
    Ok(MemDisk::new(alloc, bytes.to_vec(alloc)?)?)
}

/// Whether none of these calls writes.
pub fn writes_nothing(calls: &[Call]) -> bool {
    for call in calls {
        if matches!(call, Call::Write(_, _)) {
            return false;
        }
    }
    true
}
