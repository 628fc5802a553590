//! What the words ask for, from the store and the pairs to the end of all sessions.
use crate::ports::{LiveReplies, open_ports};
use crate::texts::{HELP, VERSION};
use kept_store::begun::Begun;
use overlay_server::outcome::{Left, ServeOptions};
use overlay_server::serving::serve_ports;
use program_store::ending::{Ends, end_run, was_written};
use program_store::fault::ProgramFault;
use program_store::refusal::Refusal;
use program_store::store::open_store;
use program_store::streams::keep_streams;
use program_words::live_plan::{Asked, LivePlan};
use program_words::live_reading::read_live_words;
use program_words::own::own_words;
use session_threads::port::Finished;
use std::env::Env;
use std::fs::File;
use std::io::{Stderr, Stdin, Stdout, Write};
use std::rt::Files;
use std::sync::Wait;
use std::thread::Threads;
use tile_workers::gate::OpenGate;

/// What the words ask for.
pub fn read_asked<Q: Env + AllocGlobal>(rt: &Q) -> Result<Asked, ProgramFault> {
    Ok(read_live_words(rt.alloc(), &own_words(rt)?)?)
}

/// Runs what the words ask for. It says whether each session was read to its end and the newest version is in the
/// store, where it is to be. The fault is one that no session's replies report.
pub fn run<'a, Q: Files<File = File> + Threads + Wait + Sync + AllocGlobal>(
    rt: &Q,
    input: Stdin,
    output: Stdout,
    errors: Stderr,
    asked: &'a Asked,
) -> Result<bool, Refusal<'a>> {
    match asked {
        Asked::Help => print(output, HELP),
        Asked::Version => print(output, VERSION),
        Asked::Run(plan) => {
            keep_streams(rt, &input, &output, &errors)?;
            serve_plan(rt, input, output, plan)
        }
    }
}

/// Prints a text alone.
fn print<'a>(mut output: impl Write + Drop, text: &str) -> Result<bool, Refusal<'a>> {
    match output.write_all(text.as_bytes()) {
        Ok(()) => Ok(true),
        Err(_) => Err(Refusal::from(ProgramFault::Write)),
    }
}

/// Runs the sessions until each has read its lines to their end. The store is opened before the pairs, so that its
/// fault is reported before anybody waits at a pipe.
fn serve_plan<'a, Q: Files<File = File> + Threads + Wait + Sync + AllocGlobal>(
    rt: &Q,
    input: Stdin,
    output: Stdout,
    plan: &'a LivePlan,
) -> Result<bool, Refusal<'a>> {
    let keeping = &plan.keeping;
    let engine = open_store(rt, keeping)?;
    let ports = open_ports(rt, input, output, &plan.pairs)?;
    let options = ServeOptions {
        workers: keeping.workers as usize,
    };
    match serve_ports(rt, rt.alloc(), options, &OpenGate, Begun::of(engine), ports) {
        Ok(Left { sessions, closed }) => {
            match end_run(keeping, &closed, true, Ends::of(&sessions)) {
                Ok(complete) => Ok(complete),
                Err(fault) => Err(about(fault, plan, &sessions)),
            }
        }
        Err(refused) => Err(Refusal::from(ProgramFault::of_server(refused.fault.code))),
    }
}

/// The fault at the end of a run, with the file that it is about: the store, or where the replies of the first session
/// go that could not write them.
fn about<'a>(
    fault: ProgramFault,
    plan: &'a LivePlan,
    sessions: &[Finished<LiveReplies>],
) -> Refusal<'a> {
    match (fault, &plan.keeping.store) {
        (ProgramFault::Store(_), Some(path)) => Refusal::about(fault, path),
        (ProgramFault::Write, _) => match plan.pairs.get(written_before(sessions)) {
            Some((_, to)) => Refusal::about(fault, to),
            None => Refusal::from(fault),
        },
        _ => Refusal::from(fault),
    }
}

/// How many sessions wrote their replies before the first one that could not.
fn written_before(sessions: &[Finished<LiveReplies>]) -> usize {
    sessions
        .iter()
        .take_while(|session| was_written(&session.end))
        .count()
}
